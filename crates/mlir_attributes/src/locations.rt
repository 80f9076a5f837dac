//! The text of a location.

ghost use Rattle.std.specs.Prelude.{◌≡◌, ◌≤◌, ◌-◌, length, IfOk};
ghost use Rattle.mlir_attributes.specs.Steps as spec;

use mlir_lexer::BodyFault;
use text_scan::strings::string_end;

/// The place behind the `)` that closes a bracket that was opened before `from`. Strings are skipped.
#[tactic(auto, unfolding(crate::specs::Steps::balanced))]
pub fn balanced(bytes: &[u8], room: u32, from: usize) -> Result<usize, BodyFault>
    requires { from ≤ length bytes.now }
    ensures end { result ≡ spec.balanced (length bytes.now - from) bytes.now room 1 from }
    ensures within { IfOk result (λ end. end ≤ length bytes.now) }
{
    let mut at = from;
    let mut depth = 1;
    for _turn in 0..bytes.len() - from {
        if at >= bytes.len() {
            return Err(BodyFault::Unclosed(bytes.len()));
        }
        match bytes[at] {
            b'"' => {
                let Some(end) = string_end(bytes, at) else {
                    return Err(BodyFault::BadString(at));
                };
                at = end;
            }
            b'(' if depth >= room => return Err(BodyFault::TooDeep(at)),
            b'(' => {
                depth += 1;
                at += 1;
            }
            b')' if depth <= 1 => return Ok(at + 1),
            b')' => {
                depth -= 1;
                at += 1;
            }
            _ => at += 1,
        }
    }
    Err(BodyFault::Unclosed(bytes.len()))
}
