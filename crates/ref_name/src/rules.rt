// The rules of a ref's name.
ghost use Rattle.std.specs.Prelude.{◌≡◌, ◌↔◌, IsTrue};
ghost use Rattle.std.specs.List.{list_any};
ghost use Rattle.rad_base.specs.Sizes.{Lacks};
ghost use Rattle.ref_name.specs.Rules.{Breaks, FindsBroken, HasBadSlash, is_control, is_pattern};

use crate::components::has_bad_component;
use crate::words::{begins, ends, has};

fn is_control(byte: u8) -> bool
    ensures { result ≡ is_control byte }
{
    byte < 32 || matches!(byte, 127 | b' ' | b'~' | b'^' | b':')
}

fn has_control(name: &[u8]) -> bool
    ensures { result ≡ list_any is_control name.now }
{
    name.iter().any(|byte| is_control(*byte))
}

fn is_pattern(byte: u8) -> bool
    ensures { result ≡ is_pattern byte }
{
    matches!(byte, b'?' | b'*' | b'[')
}

fn has_pattern(name: &[u8]) -> bool
    ensures { result ≡ list_any is_pattern name.now }
{
    name.iter().any(|byte| is_pattern(*byte))
}

fn has_no_slash(name: &[u8]) -> bool
    ensures { IsTrue result ↔ Lacks 47 name.now }
{
    name.iter().all(|byte| *byte != b'/')
}

fn has_bad_slash(name: &[u8]) -> bool
    ensures { IsTrue result ↔ HasBadSlash name.now }
{
    begins(name, b"/") || ends(name, b"/") || has(name, b"//")
}

// Whether a name breaks the rule of a number.
fn breaks(rule: u8, name: &[u8]) -> bool
    ensures { IsTrue result ↔ Breaks rule name.now }
{
    match rule {
        1 => has_bad_component(name),
        2 => has_no_slash(name),
        3 => has(name, b".."),
        4 => has_control(name),
        5 => has_pattern(name),
        6 => has_bad_slash(name),
        7 => ends(name, b"."),
        8 => has(name, b"@{"),
        9 => name == b"@".as_slice(),
        10 => has(name, b"\\"),
        _ => false,
    }
}

/// The least number of a rule of git-check-ref-format that a ref's name breaks. None exactly where
/// it breaks none.
///
/// 1. No component, which is what stands between slashes, begins with `.` or ends with `.lock`.
/// 2. There is a `/`.
/// 3. There is no `..`.
/// 4. There is no byte below 32, no 127, no space, `~`, `^` or `:`.
/// 5. There is no `?`, `*` or `[`.
/// 6. It does not begin or end with `/`, and has no `//`.
/// 7. It does not end with `.`.
/// 8. There is no `@{`.
/// 9. It is not the single `@`, which breaks rule 2 as well.
/// 10. There is no `\`.
pub fn check_ref_name(name: &[u8]) -> Option<u8>
    ensures { FindsBroken name.now result }
{
    for rule in 1..=10u8 {
        if breaks(rule, name) {
            return Some(rule);
        }
    }
    None
}
