// The layers a fault passes through on its way out.
ghost use Rattle.std.specs.Prelude.{◌≡◌, Some};
ghost use Rattle.fault.specs.Numbers.{layer_number};
ghost use Rattle.fault.specs.Words.{layer_name};

use std::fmt;

#[derive(Clone, Copy, PartialEq, Eq, Debug)]
pub enum Layer {
    Block = 1,
    Book = 2,
    Profile = 3,
    Call = 4,
    Program = 5,
}

impl Layer {
    // A method and no `From`: `u8::from(layer)` is no plainer, and drops the word that users know.
    pub fn number(self) -> u8
        ensures { result ≡ layer_number self }
    {
        self as u8
    }
}

impl fmt::Display for Layer {
    ghost output = { λ l. Some (layer_name l) };

    fn fmt<W: fmt::Write>(&self, f: &mut fmt::Formatter<W>) -> fmt::Result {
        f.write_str(match self {
            Layer::Block => "block",
            Layer::Book => "book",
            Layer::Profile => "profile",
            Layer::Call => "call",
            Layer::Program => "program",
        })
    }
}
