//! What the lines before a line say, as far as the causes ask for it.

ghost use Rattle.std.specs.Prelude.{◌≡◌, ◌<◌, ◌^◌};
ghost use Rattle.gh_dump.specs.Kept.{no_line, with_line};

use crate::item::Item;

/// What some lines from the front on say.
#[derive(Clone, Copy, Debug)]
pub struct Before {
    /// How many lines there are.
    pub lines: u32,
    /// Whether one lists an object.
    pub has_object: bool,
    /// Whether one is a total.
    pub has_total: bool,
    /// The number of the last global.
    pub last_global: Option<u32>,
    /// The number of the last field behind the last object's line.
    pub last_field: Option<u32>,
}

impl Before {
    /// What no line says.
    pub fn nothing() -> Before
        ensures { result ≡ no_line }
    {
        Before {
            lines: 0,
            has_object: false,
            has_total: false,
            last_global: None,
            last_field: None,
        }
    }

    /// What one line more says.
    pub fn add(&mut self, line: Option<Item>)
        requires { self.old.lines < 2 ^ 31 }
        ensures { self.new ≡ with_line self.old line }
    {
        self.lines += 1;
        match line {
            Some(Item::Global(k, _)) => self.last_global = Some(k),
            Some(Item::ObjectByGlobal(_, _, _, _)) | Some(Item::ObjectByParent(_, _, _, _, _)) => {
                self.has_object = true;
                self.last_field = None;
            }
            Some(Item::Field(i, _)) => self.last_field = Some(i),
            Some(Item::Total(_, _)) => self.has_total = true,
            None => {}
        }
    }
}
