//! The flags and numbers of a Bezier or B-spline curve. Each method is stated at its own stage.
ghost use Rattle.curve_tables.specs.ChainSteps.{StepsFrom};
ghost use Rattle.curve_tables.specs.declared.stage.Stage.TheVariants as stages;

use crate::chain::ChainReader;
use crate::counts::pole_decimals;
use crate::parts::Form;
use crate::stage::Stage;
use brep_tokens::{ReadStop, Token};
use entry_readers::{flag_due, number_due};

impl ChainReader {
    /// Whether a Bezier curve is rational.
    pub fn take_bezier_rational(&mut self, t: &Token) -> Result<(), ReadStop>
        ensures { StepsFrom stages.BezierRational self.old t.now self.new result }
    {
        match flag_due(t) {
            Err(f) => Err(ReadStop::Fault(f)),
            Ok(rational) => {
                self.stage = Stage::BezierDegree { rational };
                Ok(())
            }
        }
    }

    /// The degree of a Bezier curve.
    pub fn take_bezier_degree(&mut self, t: &Token, rational: bool) -> Result<(), ReadStop>
        ensures { StepsFrom (stages.BezierDegree rational) self.old t.now self.new result }
    {
        match number_due(t) {
            Err(f) => Err(ReadStop::Fault(f)),
            Ok(degree) => {
                let due = (degree + 1) * pole_decimals(self.dimension, rational);
                self.expect(Form::Bezier { rational, degree }, due, 0);
                Ok(())
            }
        }
    }

    /// Whether a B-spline curve is rational.
    pub fn take_spline_rational(&mut self, t: &Token) -> Result<(), ReadStop>
        ensures { StepsFrom stages.SplineRational self.old t.now self.new result }
    {
        match flag_due(t) {
            Err(f) => Err(ReadStop::Fault(f)),
            Ok(rational) => {
                self.stage = Stage::SplineFlag { rational };
                Ok(())
            }
        }
    }

    /// The second flag of a B-spline curve.
    pub fn take_spline_flag(&mut self, t: &Token, rational: bool) -> Result<(), ReadStop>
        ensures { StepsFrom (stages.SplineFlag rational) self.old t.now self.new result }
    {
        match flag_due(t) {
            Err(f) => Err(ReadStop::Fault(f)),
            Ok(flag) => {
                self.stage = Stage::SplineDegree { rational, flag };
                Ok(())
            }
        }
    }

    /// The degree of a B-spline curve.
    pub fn take_spline_degree(
        &mut self,
        t: &Token,
        rational: bool,
        flag: bool,
    ) -> Result<(), ReadStop>
        ensures { StepsFrom (stages.SplineDegree rational flag) self.old t.now self.new result }
    {
        match number_due(t) {
            Err(f) => Err(ReadStop::Fault(f)),
            Ok(degree) => {
                self.stage = Stage::SplinePoles {
                    rational,
                    flag,
                    degree,
                };
                Ok(())
            }
        }
    }

    /// The number of poles of a B-spline curve.
    pub fn take_spline_poles(
        &mut self,
        t: &Token,
        rational: bool,
        flag: bool,
        degree: u64,
    ) -> Result<(), ReadStop>
        ensures { StepsFrom (stages.SplinePoles rational flag degree) self.old t.now self.new result }
    {
        match number_due(t) {
            Err(f) => Err(ReadStop::Fault(f)),
            Ok(pole_count) => {
                let decimals = pole_count * pole_decimals(self.dimension, rational);
                let form = Form::BSpline {
                    rational,
                    flag,
                    degree,
                    pole_count,
                };
                self.stage = Stage::SplineKnots { form, decimals };
                Ok(())
            }
        }
    }

    /// The number of knots of a B-spline curve.
    pub fn take_spline_knots(
        &mut self,
        t: &Token,
        form: Form,
        decimals: u64,
    ) -> Result<(), ReadStop>
        ensures { StepsFrom (stages.SplineKnots form decimals) self.old t.now self.new result }
    {
        match number_due(t) {
            Err(f) => Err(ReadStop::Fault(f)),
            Ok(knots) => {
                self.expect(form, decimals, knots);
                Ok(())
            }
        }
    }
}
