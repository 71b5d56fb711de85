//! The options of an overlay.

ghost use Rattle.std.specs.Prelude.{◌≡◌, ◌<◌, ◌≤◌, codes, length, get_or, IfSome};

/// The words for the sides of a window.
#[derive(Clone, Copy, Debug)]
pub struct Sides<'a> {
    pub left: &'a str,
    pub low: &'a str,
    pub right: &'a str,
    pub high: &'a str,
}

/// What an option of an overlay gives.
#[derive(Clone, Copy, Debug)]
pub enum Given<'a> {
    /// The operation.
    Operation(&'a str),
    /// The rule.
    Rule(&'a str),
    /// The window.
    Window(Sides<'a>),
}

/// An option, and the place behind it.
#[derive(Clone, Copy, Debug)]
pub struct Placed<'a> {
    pub given: Given<'a>,
    pub next: usize,
}

/// What the options of an overlay give together.
#[derive(Clone, Copy, Debug)]
pub struct Choice<'a> {
    pub operation: &'a str,
    pub rule: &'a str,
    pub window: Option<Sides<'a>>,
}

/// What the options behind the word `overlay` give: `union` where none gives an operation, `nonzero` where none gives a rule, and
/// no window where none gives one; of two that give the same the last counts. Where there is another word, `None`.
pub fn chosen<'a>(words: &[&'a str]) -> Option<Choice<'a>> {
    if *words.first()? != "overlay" {
        return None;
    }
    let mut operation = "union";
    let mut rule = "nonzero";
    let mut window = None;
    let mut place = 1;
    // `operation`, `rule` and `window` are what the options before `place` give.
    'options: while place < words.len() {
        let option = option_at(words, place)?;
        match option.given {
            Given::Operation(word) => operation = word,
            Given::Rule(word) => rule = word,
            Given::Window(sides) => window = Some(sides),
        }
        place = option.next;
    }
    Some(Choice {
        operation,
        rule,
        window,
    })
}

/// The option that stands at this place: `--operation VALUE`, `--rule VALUE`, or the same as one word with `=` between the two; or
/// `--window` and four values.
pub fn option_at<'a>(words: &[&'a str], place: usize) -> Option<Placed<'a>>
    requires { place < length words.now }
    ensures { IfSome result (λ option. (place < option.next) × (option.next ≤ length words.now)) }
{
    let word = words[place];
    if let Some(value) = word.strip_prefix("--operation=") {
        return Some(option_of(Given::Operation(value), place + 1));
    }
    if let Some(value) = word.strip_prefix("--rule=") {
        return Some(option_of(Given::Rule(value), place + 1));
    }
    let value = words.get(place + 1)?;
    match word {
        "--operation" => Some(option_of(Given::Operation(value), place + 2)),
        "--rule" => Some(option_of(Given::Rule(value), place + 2)),
        "--window" => window_at(words, place),
        _ => None,
    }
}

// The window that four values behind this place give.
fn window_at<'a>(words: &[&'a str], place: usize) -> Option<Placed<'a>>
    requires { place < length words.now }
    ensures { IfSome result (λ option. (place < option.next) × (option.next ≤ length words.now)) }
{
    let high = words.get(place + 4)?;
    let sides = Sides {
        left: words[place + 1],
        low: words[place + 2],
        right: words[place + 3],
        high,
    };
    Some(option_of(Given::Window(sides), place + 5))
}

// An option.
fn option_of(given: Given<'_>, next: usize) -> Placed<'_>
    ensures { result.next ≡ next }
{
    Placed { given, next }
}
