//! Marks: one for each record of a file, by its number.
ghost use Rattle.brep_file.specs.Marks.{mark_of};
ghost use Rattle.std.specs.Prelude.{◌≡◌};

/// The mark of a record.
pub fn is_marked(marks: &[bool], number: usize) -> bool
    ensures { result ≡ mark_of marks.now number }
{
    marks
        .get(number.saturating_sub(1))
        .copied()
        .unwrap_or(false)
}
