//! The fields of a line: the parts between its spaces.

ghost use Rattle.std.specs.Prelude.{◌≡◌, ◌==◌, length, map, count_by, IfOk};
ghost use Rattle.std.specs.List.{list_any};
ghost use Rattle.auc_subs.specs.Field.{fields_of};
ghost use Rattle.auc_subs.specs.Subscriber.{line_counts};

use std::alloc::{AllocError, Global};

/// Whether a line has seven fields or nine, which one space each separates.
pub fn has_seven_or_nine_fields(line: &[u8]) -> bool
    ensures { result ≡ list_any (λ count. length (fields_of line.now) == count) line_counts }
{
    let spaces = space_count(line);
    spaces == 6 || spaces == 8
}

/// How many spaces a line has.
fn space_count(line: &[u8]) -> usize
    ensures { result ≡ count_by (λ byte. byte == 32) line.now }
{
    line.iter().filter(|byte| **byte == b' ').count()
}

/// The fields of a line.
pub fn fields(alloc: Global, line: &[u8]) -> Result<Vec<&[u8]>, AllocError>
    ensures { IfOk result (λ fields. map (λ field. field.now) fields.items ≡ fields_of line.now) }
{
    line.split(|byte| *byte == b' ').collect(alloc)
}
