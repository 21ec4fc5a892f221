//! The lines of a table file.

ghost use Rattle.std.specs.Prelude.{◌≡◌, ◌<◌, ◌≤◌, IfSome, option_map, option_copied};
ghost use Rattle.dr_formats.specs.TableFile.{first_line, behind_word, number_behind, leaf_line};
ghost use Rattle.dr_table.specs.Lines.{line_view};

/// What stands before the directory of a leaf line.
const LEAF: &str = "leaf ";

/// The first line of a text and what is behind its LF, if it is ended by one.
pub(crate) fn cut_line(text: &str) -> Option<(&str, &str)>
    ensures { option_map line_view result ≡ first_line text.now }
{
    text.split_once('\n')
}

/// What is behind a word at the front of a line.
fn behind_word<'t>(line: &'t str, word: &str) -> Option<&'t str>
    ensures { option_copied result ≡ behind_word word.now line.now }
{
    line.strip_prefix(word)
}

/// The number behind a word, from 1 to the greatest, in decimal without leading zeros.
pub(crate) fn number_behind(line: &str, word: &str, greatest: u32) -> Option<u32>
    ensures value { result ≡ number_behind word.now greatest line.now }
    ensures some { IfSome result (λ n. 0 < n) }
    ensures few { IfSome result (λ n. n ≤ greatest) }
{
    let digits = behind_word(line, word)?;
    if digits.starts_with('0') || digits.starts_with('+') {
        return None;
    }
    match digits.parse::<u32>() {
        Ok(number) if number <= greatest => Some(number),
        _ => None,
    }
}

/// The directory of a leaf line.
pub(crate) fn leaf_directory(line: &str) -> Option<&str>
    ensures { option_copied result ≡ leaf_line line.now }
{
    let directory = behind_word(line, LEAF)?;
    if directory.is_empty() {
        return None;
    }
    Some(directory)
}
