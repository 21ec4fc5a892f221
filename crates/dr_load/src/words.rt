//! Which words are refused.

ghost use Rattle.std.specs.Prelude.{◌≡◌, map, string_bytes, IfErr, OnOk, None, Some};
ghost use Rattle.dr_formats.specs.Loading.{words_refusal};
ghost use Rattle.dr_load.specs.Words.{words_problem_view, no_lf};
ghost use Rattle.dr_formats.specs.TableFile.{is_line_text};

use memchr::memchr;

/// What is wrong with the words of `load`.
#[derive(Clone, Copy, PartialEq, Eq)]
pub enum WordsProblem {
    /// The directory of this number, counted from 0, is empty or has a line feed.
    Leaf(usize),
    /// There are more copies than directories.
    Copies,
}

/// Whether a text has no line feed.
fn is_one_line(text: &[u8]) -> bool
    ensures { result ≡ no_lf text.now }
{
    memchr(b'\n', text).is_none()
}

/// Whether a text can be a directory: it isn't empty and has no line feed.
fn is_directory(text: &str) -> bool
    ensures { result ≡ is_line_text text.now }
{
    !text.is_empty() && is_one_line(text.as_bytes())
}

/// Whether tablets may be loaded onto these directories, with so many copies of each. A directory is refused before the
/// number of copies.
///
/// Errors: the first directory that is empty or has a line feed; else more copies than directories.
pub fn check_words(directories: &[String], copies: u32) -> Result<(), WordsProblem>
    ensures taken { OnOk result (words_refusal (map string_bytes directories.now) copies ≡ None) }
    ensures refused { IfErr result (λ p. words_refusal (map string_bytes directories.now) copies
        ≡ Some (words_problem_view p)) }
{
    'directories: for (number, directory) in directories.iter().enumerate() {
        if !is_directory(directory.as_str()) {
            return Err(WordsProblem::Leaf(number));
        }
    }
    if copies as usize > directories.len() {
        return Err(WordsProblem::Copies);
    }
    Ok(())
}
