//! White space and comments.
ghost use Rattle.std.specs.Prelude.{◌≡◌, ◌<◌, ◌≤◌, length, drop, true, codes, eqb};
ghost use Rattle.std.specs.List.{take_while, starts_with};
ghost use Rattle.sc_lexer.specs.Blanks.{ends_line, stays_in_line, BeginsNoSpace, Skips, Leads};

/// Whether a byte ends a line, and so a comment.
fn ends_line(byte: u8) -> bool
    ensures { result ≡ ends_line byte }
{
    byte == b'\n' || byte == b'\r'
}

/// How many bytes stand before the end of the line.
fn line_len(bytes: &[u8]) -> usize
    ensures value { result ≡ length (take_while stays_in_line bytes.now) }
    ensures within { result ≤ length bytes.now }
{
    bytes.iter().take_while(|byte| !ends_line(**byte)).count()
}

/// What follows the line that a text begins with, from the line's end on.
#[tactic(auto, using(crate::proofs::BlankLaws::line_boundary))]
fn after_line(text: &str) -> &str
    ensures value { result.now ≡ drop (length (take_while stays_in_line text.now)) text.now }
{
    let line = line_len(text.as_bytes());
    &text[line..]
}

/// What follows the comment and the white space after it that a text begins with.
#[tactic(auto, using(crate::proofs::BlankLaws::Leads_comment, crate::proofs::BlankLaws::shorter_comment, crate::proofs::BlankLaws::BeginsNoSpace_trim))]
fn after_comment(text: &str) -> &str
    requires { starts_with eqb text.now (codes "//") ≡ true }
    ensures leads { Leads text.now result.now }
    ensures space { BeginsNoSpace result.now }
    ensures shorter { length result.now < length text.now }
{
    after_line(text).trim_start()
}

/// Whether a comment begins the text.
#[tactic(auto, using(crate::proofs::BlankLaws::starts_comment))]
fn begins_comment(text: &str) -> bool
    ensures { result ≡ starts_with eqb text.now (codes "//") }
{
    text.starts_with("//")
}

/// What follows the white space and the comments that a text begins with.
#[tactic(auto, using(crate::proofs::BlankLaws::Leads_trim, crate::proofs::BlankLaws::BeginsNoSpace_trim, crate::proofs::BlankLaws::Leads_add, crate::proofs::BlankLaws::Leads_end, crate::proofs::BlankLaws::within_end))]
pub(crate) fn after_blanks(text: &str) -> &str
    ensures skips { Skips text.now result.now }
    ensures within { length result.now ≤ length text.now }
{
    let mut rest = text.trim_start();
    while begins_comment(rest) {
        rest = after_comment(rest);
    }
    rest
}
