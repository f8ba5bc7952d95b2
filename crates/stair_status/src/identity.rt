ghost use Rattle.std.specs.Prelude.{◌≡◌, Some};
ghost use Rattle.hex.specs.Hex.{encode_lower};

use std::fmt;

/// The lower-case digits of an identity.
pub fn identity_digits(id: [u8; 16]) -> [u8; 32]
    ensures { result ≡ encode_lower id }
{
    let mut digits = [0; 32];
    // they have twice the length
    let _ = hex::encode_to_slice(&id, &mut digits);
    digits
}

/// An identity, in lower-case digits.
#[derive(Drop)]
pub(crate) struct Identity {
    pub(crate) id: [u8; 16],
}

impl fmt::Display for Identity {
    ghost use Rattle.hex.specs.Hex.{encode_lower};

    ghost output = { λ identity. Some (encode_lower identity.id) };

    fn fmt<W: fmt::Write>(&self, f: &mut fmt::Formatter<W>) -> fmt::Result {
        for digit in identity_digits(self.id) {
            f.write_char(char::from(digit))?;
        }
        Ok(())
    }
}
