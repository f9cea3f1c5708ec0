use std::marker::Model;

/// A file: its name and its bytes.
#[derive(Drop)]
pub struct Text {
    pub name: String,
    pub bytes: Vec<u8>,
}

impl Model for Text {
    ghost use Rattle.std.specs.Prelude.{string_bytes};
    ghost use Rattle.p2c_text.specs.Text.{NamedBytes};

    ghost Value = { NamedBytes };

    ghost view = { λ text. record { name = string_bytes text.name; bytes = text.bytes.items } };
}

/// The files of one translation, in order.
#[derive(Drop)]
pub struct Texts {
    pub files: Vec<Text>,
}

impl Model for Texts {
    ghost use Rattle.std.specs.Prelude.{List};
    ghost use Rattle.p2c_text.specs.Text.{NamedBytes};

    ghost Value = { List NamedBytes };

    ghost view = { λ texts. texts.files.items };
}
