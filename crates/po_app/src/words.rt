ghost use Rattle.std.specs.Prelude.{ℕ, List as Sequence, ◌≡◌, ◌≤◌, IsTrue, All, Some, slice_get, ◌↔◌, map, string_bytes, IfSome, IfNone};
ghost use Rattle.po_app.specs.Command.{IsCheck, IsFileName};

/// Whether no byte is below 32.
fn has_no_control(name: &[u8]) -> bool
    ensures { IsTrue result ↔ All (λ b. 32 ≤ b) name.now }
{
    name.iter().all(|byte| *byte >= 32)
}

/// Whether the first byte is `-`.
fn begins_with_dash(name: &[u8]) -> bool
    ensures { IsTrue result ↔ (slice_get name.now 0 ≡ Some 45) }
{
    !name.is_empty() && name[0] == b'-'
}

/// Whether bytes are the name of a file: not empty, not begun by `-`, and without a byte below 32.
fn is_file_name(name: &[u8]) -> bool
    ensures { IsTrue result ↔ IsFileName name.now }
{
    !name.is_empty() && !begins_with_dash(name) && has_no_control(name)
}

/// The file of the command `check FILE`, where the words are of this form.
pub(crate) fn file_to_check(words: &Vec<String>) -> Option<&str>
    ensures found { IfSome result (λ name. IsCheck (map string_bytes words.now.items) name.now) }
    ensures none { IfNone result ((name : Sequence ℕ) → IsCheck (map string_bytes words.now.items) name → ⊥) }
{
    match words.as_slice() {
        [command, file] => {
            let file = file.as_str();
            if command.as_str() == "check" && is_file_name(file.as_bytes()) {
                return Some(file);
            }
            None
        }
        _ => None,
    }
}
