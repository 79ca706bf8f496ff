ghost use Rattle.std.specs.Prelude.{◌≡◌, ◌≤◌, length, IfSome};
ghost use Rattle.vlog_lex.specs.declared.closed.Inside.TheVariants.{Comment, Attribute};
ghost use Rattle.vlog_lex.specs.Closed.{next_step, closed_length};

/// Inside what a byte stands, in what has an end of its own.
#[derive(Clone, Copy, Debug)]
pub enum Inside {
    /// A block comment (IEEE 1364-2005, 3.3).
    Comment,
    /// A block comment, right behind a `*`.
    CommentStar,
    /// A string (3.6).
    Text,
    /// A string, right behind a `\`.
    TextEscape,
    /// An attribute (3.8).
    Attribute,
    /// An attribute, right behind a `*`.
    AttributeStar,
    /// A string in an attribute.
    AttributeText,
    /// A string in an attribute, right behind a `\`.
    AttributeEscape,
}

/// What a byte does to what it stands in.
#[derive(Clone, Copy, Debug)]
pub enum Step {
    /// What follows stands in it too.
    Goes(Inside),
    /// It ends with the byte.
    Closes,
    /// It can't have the byte, so it has no end.
    Breaks,
}

fn comment_step(byte: u8) -> Step
    ensures { result ≡ next_step Comment byte }
{
    match byte {
        b'*' => Step::Goes(Inside::CommentStar),
        _ => Step::Goes(Inside::Comment),
    }
}

fn attribute_step(byte: u8) -> Step
    ensures { result ≡ next_step Attribute byte }
{
    match byte {
        b'"' => Step::Goes(Inside::AttributeText),
        b'*' => Step::Goes(Inside::AttributeStar),
        _ => Step::Goes(Inside::Attribute),
    }
}

fn next_step(inside: Inside, byte: u8) -> Step
    ensures { result ≡ next_step inside byte }
{
    match inside {
        Inside::Comment => comment_step(byte),
        Inside::CommentStar => match byte {
            b'/' => Step::Closes,
            _ => comment_step(byte),
        },
        Inside::Text => match byte {
            b'"' => Step::Closes,
            b'\\' => Step::Goes(Inside::TextEscape),
            b'\n' => Step::Breaks,
            _ => Step::Goes(Inside::Text),
        },
        Inside::TextEscape => Step::Goes(Inside::Text),
        Inside::Attribute => attribute_step(byte),
        Inside::AttributeStar => match byte {
            b')' => Step::Closes,
            _ => attribute_step(byte),
        },
        Inside::AttributeText => match byte {
            b'"' => Step::Goes(Inside::Attribute),
            b'\\' => Step::Goes(Inside::AttributeEscape),
            b'\n' => Step::Breaks,
            _ => Step::Goes(Inside::AttributeText),
        },
        Inside::AttributeEscape => Step::Goes(Inside::AttributeText),
    }
}

/// How many of the bytes there are up to and with the end of what they stand in. None where it has
/// no end.
pub fn closed_length(start: Inside, bytes: &[u8]) -> Option<usize>
    ensures value { result ≡ closed_length start bytes.now }
    ensures within { IfSome result (λ count. count ≤ length bytes.now) }
{
    let mut inside = start;
    for (at, byte) in bytes.iter().enumerate() {
        match next_step(inside, *byte) {
            Step::Goes(next) => inside = next,
            Step::Closes => return Some(at + 1),
            Step::Breaks => return None,
        }
    }
    None
}
