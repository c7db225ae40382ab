//! The numbers in front of the decimals of a Bezier or a B-spline surface.
ghost use Rattle.surface_tables.specs.HeaderLeft.{GoesTo, bezier_left, counts_left, flags_left};
ghost use Rattle.surface_tables.specs.declared.header.SplineCounts.TheVariants as counts;

use crate::counts::{pole_size, vdegree_due, vpoles_due};
use crate::parts::{Body, Form, Net};
use crate::surface::SurfaceFlags;
use brep_tokens::{ReadFault, Token};
use entry_readers::{flag_due, number_due};

/// Which number of a Bezier surface is due, with those that were taken. Its poles stand in one row more than its u
/// degree.
#[derive(Clone, Copy)]
pub enum BezierHeader {
    Urational,
    Vrational {
        urational: bool,
    },
    Udegree {
        urational: bool,
        vrational: bool,
    },
    Vdegree {
        urational: bool,
        vrational: bool,
        udegree: u64,
        rows: u64,
    },
}

/// Which flag of a B-spline surface is due, with those that were taken.
#[derive(Clone, Copy)]
pub enum SplineFlags {
    Urational,
    Vrational {
        urational: bool,
    },
    Uflag {
        urational: bool,
        vrational: bool,
    },
    Vflag {
        urational: bool,
        vrational: bool,
        uflag: bool,
    },
}

/// Which number of a B-spline surface is due, with those that were taken.
#[derive(Clone, Copy)]
pub enum SplineCounts {
    Udegree {
        flags: SurfaceFlags,
    },
    Vdegree {
        flags: SurfaceFlags,
        udegree: u64,
    },
    Upoles {
        flags: SurfaceFlags,
        udegree: u64,
        vdegree: u64,
    },
    Vpoles {
        flags: SurfaceFlags,
        udegree: u64,
        vdegree: u64,
        upoles: u64,
    },
    Uknots {
        net: Net,
        decimals: u64,
    },
    Vknots {
        net: Net,
        decimals: u64,
        uknots: u64,
    },
}

/// What follows a number: a further one, or the decimals.
#[derive(Clone, Copy)]
pub enum HeaderStep {
    Bezier(BezierHeader),
    Flags(SplineFlags),
    Counts(SplineCounts),
    Whole(Body),
}

/// Takes a number of a Bezier surface.
pub fn bezier_step(header: BezierHeader, t: &Token) -> Result<HeaderStep, ReadFault>
    ensures { GoesTo (bezier_left header) t.now result }
{
    let next = match header {
        BezierHeader::Urational => BezierHeader::Vrational {
            urational: flag_due(t)?,
        },
        BezierHeader::Vrational { urational } => BezierHeader::Udegree {
            urational,
            vrational: flag_due(t)?,
        },
        BezierHeader::Udegree {
            urational,
            vrational,
        } => {
            let udegree = number_due(t)?;
            BezierHeader::Vdegree {
                urational,
                vrational,
                udegree,
                rows: udegree + 1,
            }
        }
        BezierHeader::Vdegree {
            urational,
            vrational,
            udegree,
            rows,
        } => {
            let vdegree = vdegree_due(rows, t)?;
            let decimals = rows * (vdegree + 1) * pole_size(urational, vrational);
            let form = Form::Bezier {
                urational,
                vrational,
                udegree,
                vdegree,
            };
            return Ok(HeaderStep::Whole(Body { form, decimals }));
        }
    };
    Ok(HeaderStep::Bezier(next))
}

/// Takes a flag of a B-spline surface.
pub fn flags_step(header: SplineFlags, t: &Token) -> Result<HeaderStep, ReadFault>
    ensures { GoesTo (flags_left header) t.now result }
{
    let flag = flag_due(t)?;
    let next = match header {
        SplineFlags::Urational => SplineFlags::Vrational { urational: flag },
        SplineFlags::Vrational { urational } => SplineFlags::Uflag {
            urational,
            vrational: flag,
        },
        SplineFlags::Uflag {
            urational,
            vrational,
        } => SplineFlags::Vflag {
            urational,
            vrational,
            uflag: flag,
        },
        SplineFlags::Vflag {
            urational,
            vrational,
            uflag,
        } => {
            let flags = SurfaceFlags {
                urational,
                vrational,
                uflag,
                vflag: flag,
            };
            return Ok(HeaderStep::Counts(SplineCounts::Udegree { flags }));
        }
    };
    Ok(HeaderStep::Flags(next))
}

/// Takes the number of v poles, with which the number of decimals is known.
fn vpoles_step(
    flags: SurfaceFlags,
    udegree: u64,
    vdegree: u64,
    upoles: u64,
    t: &Token,
) -> Result<HeaderStep, ReadFault>
    ensures { GoesTo (counts_left (counts.Vpoles flags udegree vdegree upoles)) t.now result }
{
    let vpoles = vpoles_due(upoles, t)?;
    let decimals = upoles * vpoles * pole_size(flags.urational, flags.vrational);
    let net = Net {
        flags,
        udegree,
        vdegree,
        upoles,
        vpoles,
    };
    Ok(HeaderStep::Counts(SplineCounts::Uknots { net, decimals }))
}

/// Takes the number of v knots, the last one in front of the decimals.
fn vknots_step(net: Net, decimals: u64, uknots: u64, t: &Token) -> Result<HeaderStep, ReadFault>
    ensures { GoesTo (counts_left (counts.Vknots net decimals uknots)) t.now result }
{
    let vknots = number_due(t)?;
    let form = Form::BSpline {
        net,
        uknots,
        vknots,
    };
    Ok(HeaderStep::Whole(Body { form, decimals }))
}

/// Takes a number of a B-spline surface.
pub fn counts_step(header: SplineCounts, t: &Token) -> Result<HeaderStep, ReadFault>
    ensures { GoesTo (counts_left header) t.now result }
{
    let next = match header {
        SplineCounts::Udegree { flags } => SplineCounts::Vdegree {
            flags,
            udegree: number_due(t)?,
        },
        SplineCounts::Vdegree { flags, udegree } => SplineCounts::Upoles {
            flags,
            udegree,
            vdegree: number_due(t)?,
        },
        SplineCounts::Upoles {
            flags,
            udegree,
            vdegree,
        } => SplineCounts::Vpoles {
            flags,
            udegree,
            vdegree,
            upoles: number_due(t)?,
        },
        SplineCounts::Vpoles {
            flags,
            udegree,
            vdegree,
            upoles,
        } => return vpoles_step(flags, udegree, vdegree, upoles, t),
        SplineCounts::Uknots { net, decimals } => SplineCounts::Vknots {
            net,
            decimals,
            uknots: number_due(t)?,
        },
        SplineCounts::Vknots {
            net,
            decimals,
            uknots,
        } => return vknots_step(net, decimals, uknots, t),
    };
    Ok(HeaderStep::Counts(next))
}
