//! The version that the program prints.

ghost use Rattle.std.specs.Prelude.{◌↔◌, IsTrue};
ghost use Rattle.itree.specs.Modes.{MeansVersion, AsksForVersion};

/// The program's name and its version, which the file `VERSION` at the top of the repository says too.
pub const VERSION: &str = "itree 0.7.1\n";

/// Whether the arguments ask for the version.
pub fn asks_for_version(words: &[&str]) -> bool
    ensures { IsTrue result ↔ AsksForVersion words.now }
{
    match words {
        [word] => is_version(word),
        _ => false,
    }
}

// Whether the word asks for the version.
fn is_version(word: &str) -> bool
    ensures { IsTrue result ↔ MeansVersion word.now }
{
    word == "--version" || word == "-V"
}
