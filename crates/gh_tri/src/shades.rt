//! What two or more moves do to the colours and to the scanned fields.

ghost use Rattle.std.specs.Prelude.{◌≡◌, ℕ, ◌<◌, ◌≤◌, length, IfOk, Some, true};
ghost use Rattle.gh_tri.specs.Tables.{cells};
ghost use Rattle.gh_tri.specs.Tricolour.{shaded, put1, put2};
ghost use Rattle.gh_tri.specs.declared.Colour.TheVariants.{White, Grey};
ghost use Rattle.gh_tri.specs.Colours.{colours_of};

use crate::Colour;
use crate::table::{Table, repeated};
use std::alloc::{AllocError, Global};

/// Makes the object that a value names grey, if it is white.
pub fn shade_in(colours: &mut Vec<Colour>, value: Option<u32>)
    requires { (o : ℕ) → value ≡ Some o → o < length colours.old.items }
    ensures colours { colours_of colours.new.items ≡ shaded (colours_of colours.old.items) value }
    ensures count { length colours.new.items ≡ length colours.old.items }
{
    if let Some(o) = value {
        let place = o as usize;
        colours[place] = colours[place].greyed();
    }
}

/// The colours of so many objects as at a cycle's begin: object 0 is grey, and the others are white.
pub fn first_colours(alloc: Global, count: u32) -> Result<Vec<Colour>, AllocError>
    requires { 0 < count }
    ensures colours { IfOk result (λ v. colours_of v.items ≡ put1 (λ o. White) 0 Grey) }
    ensures count { IfOk result (λ v. length v.items ≡ count) }
{
    let mut colours = repeated(alloc, count as usize, Colour::White)?;
    colours[0] = Colour::Grey;
    Ok(colours)
}

/// Notes that a field is scanned. An object past the table was made in this cycle, and its fields are scanned as they are.
pub fn note_scanned(scanned: &mut Table<bool>, o: usize, f: usize)
    requires { f < scanned.old.columns }
    ensures cells { cells true scanned.new.columns scanned.new.items.items ≡ put2 (cells true scanned.old.columns scanned.old.items.items) o f true }
    ensures rows { scanned.new.rows ≡ scanned.old.rows }
    ensures columns { scanned.new.columns ≡ scanned.old.columns }
{
    if o < scanned.rows {
        scanned.set(o, f, true);
    }
}
