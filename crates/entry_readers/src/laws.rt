//! Laws of reading and spelling. Each function does nothing: its contract is the law.
ghost use Rattle.entry_readers.specs.Begins.{FieldsAreExact};
ghost use Rattle.entry_readers.specs.FieldForms.{FieldsAreDecimals};

use brep_tokens::laws::forms_are_exact;

/// Each field is read exactly as it is spelled.
pub fn fields_are_exact()
    ensures { FieldsAreExact }
{
    forms_are_exact();
}

/// Numbers and flags are spelled as decimals are.
pub fn fields_are_decimals()
    ensures { FieldsAreDecimals }
{
    forms_are_exact();
}
