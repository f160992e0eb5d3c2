// A text at the front of the bytes.
ghost use Rattle.line_texts.specs.Prelude.{GivesSome};
ghost use Rattle.requests.specs.ParserSteps.{after_of};

/// The bytes after this text, where it comes first.
pub fn after<'a>(bytes: &'a [u8], text: &[u8]) -> Option<&'a [u8]>
    ensures { GivesSome (λ rest. rest.now) result (after_of text.now bytes.now) }
{
    bytes.strip_prefix(text)
}
