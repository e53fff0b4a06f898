ghost use Rattle.std.specs.Prelude.{◌≡◌, ◌≤◌, length, not, position};
ghost use Rattle.std.specs.List.{position_or_len};
ghost use Rattle.std.specs.Option.{option_map};
ghost use Rattle.smack_base.specs.Paths.{is_name_byte};
ghost use Rattle.audit_line.specs.Values.{value_len as len_of_value, rest_behind, cut_value as cut_of, values_of_line, seen_cut, seen_values};

/// A value, and what follows it.
#[derive(Clone, Copy)]
struct Cut<'a> {
    value: &'a [u8],
    rest: &'a [u8],
}

/// The values of a line, in its order.
#[derive(Clone, Copy)]
pub(crate) struct Values<'a> {
    pub(crate) action: &'a [u8],
    pub(crate) verb: &'a [u8],
    pub(crate) subject: &'a [u8],
    pub(crate) object: &'a [u8],
    pub(crate) modes: &'a [u8],
    pub(crate) case: &'a [u8],
}

fn value_end(text: &[u8]) -> Option<usize>
    ensures { result ≡ position (λ b. not (is_name_byte b)) text.now }
{
    text.iter().position(|b| !b.is_ascii_graphic())
}

/// How many bytes from ! to ~ stand in front.
#[tactic(auto, using(crate::proofs::Places::no_place, crate::proofs::Places::place_within))]
fn value_len(text: &[u8]) -> usize
    ensures place { result ≡ len_of_value text.now }
    ensures within { result ≤ length text.now }
{
    match value_end(text) {
        Some(at) => at,
        None => text.len(),
    }
}

/// What follows a front; None where the text does not begin with it.
fn strip<'a>(text: &'a [u8], front: &[u8]) -> Option<&'a [u8]>
    ensures { option_map (λ rest. rest.now) result ≡ rest_behind front.now text.now }
{
    text.strip_prefix(front)
}

/// The value that stands behind a front, and what follows it; None where the text does not begin
/// with the front.
fn cut_value<'a>(text: &'a [u8], front: &[u8]) -> Option<Cut<'a>>
    ensures { option_map seen_cut result ≡ cut_of front.now text.now }
{
    let Some(rest) = strip(text, front) else {
        return None;
    };
    let len = value_len(rest);
    Some(Cut {
        value: &rest[..len],
        rest: &rest[len..],
    })
}

/// The values of a line that has each key in its place, and its line feed last; None for any other
/// text.
pub(crate) fn read_values<'a>(line: &'a [u8]) -> Option<Values<'a>>
    ensures { option_map seen_values result ≡ values_of_line line.now }
{
    let text = strip(line, b"a")?;
    let action = cut_value(text, b" action=")?;
    let verb = cut_value(action.rest, b" fn=")?;
    let subject = cut_value(verb.rest, b" subject=")?;
    let object = cut_value(subject.rest, b" object=")?;
    let modes = cut_value(object.rest, b" requested=")?;
    let case = cut_value(modes.rest, b" case=")?;
    if case.rest != b"\n".as_slice() {
        return None;
    }
    Some(Values {
        action: action.value,
        verb: verb.value,
        subject: subject.value,
        object: object.value,
        modes: modes.value,
        case: case.value,
    })
}
