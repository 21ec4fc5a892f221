//! The tests that may stand behind a sum, without what they test.

/// LIKE or CONTAINS, which a text follows.
#[derive(Clone, Copy)]
pub enum TextTest {
    Like,
    Contains,
}

/// A test by words, at the place of its word and negated where it is denied; or none. A text is as it stands between
/// its quotes.
#[derive(Clone, Copy)]
pub enum WordTest<'a> {
    Nothing,
    Null {
        place: usize,
        denied: bool,
    },
    Text {
        place: usize,
        test: TextTest,
        text: &'a str,
        denied: bool,
    },
}
