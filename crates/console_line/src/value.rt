// Values: a word has 20 digits, every other number 1 to 6.
ghost use Rattle.std.specs.Prelude.{◌≡◌};
ghost use Rattle.console_line.specs.Form.{word, number};

use word_octal::text::value_of;

#[tactic(auto, unfolding(crate::specs::Form::word))]
pub(crate) fn word_of(text: &[u8]) -> Option<u64>
    ensures { result ≡ word text.now }
{
    if text.len() == 20 {
        return value_of(text);
    }
    None
}

#[tactic(auto, unfolding(crate::specs::Form::number))]
pub(crate) fn number_of(text: &[u8]) -> Option<u64>
    ensures { result ≡ number text.now }
{
    if text.len() < 1 || 6 < text.len() {
        return None;
    }
    value_of(text)
}
