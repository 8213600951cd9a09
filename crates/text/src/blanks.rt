// Blanks around a text.
ghost use Rattle.std.specs.Prelude.{◌≡◌};
ghost use Rattle.text.specs.Text.{blank, past, trim_end, trimmed};

// The text without the blanks at its front.
pub(crate) fn after_blanks(mut text: &[u8]) -> &[u8]
    ensures { result.now ≡ past blank text.now }
{
    while let [b' ' | b'\t', rest @ ..] = text {
        text = rest;
    }
    text
}

// The text without the blanks at its end.
fn before_blanks(mut text: &[u8]) -> &[u8]
    ensures { result.now ≡ trim_end text.now }
{
    while let [rest @ .., b' ' | b'\t'] = text {
        text = rest;
    }
    text
}

// The text without the blanks around it.
pub(crate) fn trimmed(text: &[u8]) -> &[u8]
    ensures { result.now ≡ trimmed text.now }
{
    before_blanks(after_blanks(text))
}
