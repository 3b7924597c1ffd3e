ghost use Rattle.std.specs.Prelude.{◌≡◌, ◌+◌, ◌≤◌, length};
ghost use Rattle.std.specs.Str.{bytes_eq};
ghost use Rattle.map_meaning.specs.StackNames.{pointed_name};
ghost use Rattle.script_types.specs.Reports.{Stacked, is_among, names_of, share_a_name};
ghost use Rattle.script_types.specs.inside.StackFiles.{first_step, is_begun};

use text_base::whole_number;

/// How many bytes the names of a stack's files have without their point.
const NAME_LENGTH: usize = 11;

/// Where the point stands in the names of a stack's files.
const POINT_AT: usize = 8;

// The first step whose number begins with these digits, where so many digits stand behind them.
fn first_step(digits: &[u8], behind: usize) -> Option<u64>
    requires { length digits.now + behind ≤ 11 }
    ensures { result ≡ first_step digits.now behind }
{
    if digits.is_empty() {
        return Some(1);
    }
    match whole_number(digits, digits.len()) {
        None => None,
        Some(0) if behind > 0 => Some(1),
        Some(0) => Some(10u64.pow(digits.len() as u32)),
        Some(number) => Some(number * 10u64.pow(behind as u32)),
    }
}

// Whether the name of one of the files of a stack begins so, without its point.
fn is_begun(prefix: &[u8], steps: u32, start: &[u8]) -> bool
    ensures { result ≡ is_begun prefix.now steps start.now }
{
    let places = NAME_LENGTH.saturating_sub(prefix.len());
    let Some(digits) = start.strip_prefix(prefix) else {
        return false;
    };
    if digits.len() > places {
        return false;
    }
    match first_step(digits, places - digits.len()) {
        Some(step) => step <= steps as u64,
        None => false,
    }
}

// Whether the file is the name with a point behind its eighth byte.
fn is_pointed(name: &[u8], file: &[u8]) -> bool
    requires { 11 ≤ length name.now }
    ensures { result ≡ bytes_eq file.now (pointed_name name.now) }
{
    file.len() == name.len() + 1
        && &file[..POINT_AT] == &name[..POINT_AT]
        && file[POINT_AT] == b'.'
        && &file[POINT_AT + 1..] == &name[POINT_AT..]
}

/// Whether the file is one of a stack with this prefix.
pub fn is_file_of(prefix: &[u8], steps: u32, file: &[u8]) -> bool
    ensures { result ≡ is_among file.now (names_of steps (Stacked prefix.now)) }
{
    if prefix.len() > NAME_LENGTH {
        return steps > 0 && is_pointed(prefix, file);
    }
    if file.len() != NAME_LENGTH + 1 || file[POINT_AT] != b'.' {
        return false;
    }
    let name = [
        file[0], file[1], file[2], file[3], file[4], file[5], file[6], file[7], file[9], file[10],
        file[11],
    ];
    is_begun(prefix, steps, &name)
}

/// Whether two stacks with these prefixes have a file in common.
pub fn share_a_file(a: &[u8], b: &[u8], steps: u32) -> bool
    ensures { result ≡ share_a_name steps (Stacked a.now) (Stacked b.now) }
{
    if a.len() <= b.len() {
        is_begun(a, steps, b)
    } else {
        is_begun(b, steps, a)
    }
}
