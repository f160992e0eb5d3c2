// Words of 32 bits in hexadecimal digits.
ghost use Rattle.std.specs.Prelude.{◌≡◌, ℕ, MatchOption};
ghost use Rattle.line_texts.specs.Numbers.{IsAddress};
ghost use Rattle.line_texts.specs.Parsers.{address_of};

/// The word that `0x` and eight lower-case hexadecimal digits are.
pub fn address_of(text: &[u8]) -> Option<u32>
    ensures address { MatchOption result ((n : ℕ) → IsAddress text.now n → ⊥) (λ n. IsAddress text.now n) }

    // As a function on lists.
    ensures gives { result ≡ address_of text.now }
{
    read(text)
}

#[tactic(auto, unfolding(crate::specs::Parsers::address_of))]
fn read(text: &[u8]) -> Option<u32>
    ensures { result ≡ address_of text.now }
{
    let [b'0', b'x', digits @ ..] = text else {
        return None;
    };
    let mut bytes = [0; 4];
    hex::decode_to_slice(digits, &mut bytes).ok()?;
    let address = u32::from_be_bytes(bytes);
    let mut spelled = [0; 8];
    hex::encode_to_slice(&address.to_be_bytes(), &mut spelled).unwrap();
    if spelled.as_slice() == digits {
        Some(address)
    } else {
        None
    }
}
