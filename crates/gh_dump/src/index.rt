//! What all lines of a text list, found by name.

ghost use Rattle.std.specs.Prelude.{◌≡◌, ℕ, ◌+◌, ◌*◌, ◌^◌, ◌<◌, ◌≤◌, ◌||◌, ◌&&◌, ◌==◌, ◌++◌, ◌∷◌, [], List, Option, Some, None, IfOk, OnOk, is_none, is_some, if◌then◌else◌};
ghost use Rattle.std.specs.HashMap.{get};
ghost use Rattle.std.specs.Option.{option_or};
ghost use Rattle.gh_dump.specs.Names.{same_name};
ghost use Rattle.gh_dump.specs.declared.item.Item.{Item};
ghost use Rattle.gh_dump.specs.declared.name.Name.{Name};
ghost use Rattle.gh_dump.specs.Index.{AddsField, AddsGlobal, AddsObject, Indexes, IsSmall};
ghost use Rattle.gh_dump.specs.Kept.{same_field, same_global};

use crate::item::Item;
use crate::name::Name;
use std::alloc::{AllocError, Global};
use std::collections::HashMap;

/// The first line that lists an object.
#[derive(Clone, Copy, Debug)]
pub struct Listing {
    /// How many lines stand before it.
    pub line: u32,
    /// The rank that it says.
    pub rank: u32,
}

/// The first listing of each object.
pub type Firsts = HashMap<Name, Listing>;
/// What each field holds of an object, as the lines behind its first listing say.
pub type Fields = HashMap<(Name, u32), Name>;
/// The objects that each global holds, by all lines of it.
pub type Globals = HashMap<(u32, Name), bool>;

/// Notes the listing of the object, unless it has one; whether it had none.
fn put_first(firsts: &mut Firsts, object: Name, listing: Listing) -> Result<bool, AllocError>
    ensures found { IfOk result (λ new. new ≡ is_none (get same_name firsts.old object)) }
    ensures after { OnOk result ((q : Name) → get same_name firsts.new q ≡ option_or (get same_name firsts.old q) (if same_name q object then Some listing else None)) }
{
    if firsts.contains_key(&object) {
        return Ok(false);
    }
    firsts.insert(object, listing)?;
    Ok(true)
}

/// Notes what the field of the object holds, unless something is noted.
fn put_field(fields: &mut Fields, p: Name, i: u32, object: Name) -> Result<(), AllocError>
    ensures { OnOk result ((q : Name) (j : ℕ) → get same_field fields.new (q, j) ≡ option_or (get same_field fields.old (q, j)) (if same_name q p && (j == i) then Some object else None)) }
{
    if fields.contains_key(&(p, i)) {
        return Ok(());
    }
    fields.insert((p, i), object)?;
    Ok(())
}

/// Notes that the global holds the object.
fn put_global(globals: &mut Globals, k: u32, object: Name) -> Result<(), AllocError>
    ensures { OnOk result ((j : ℕ) (q : Name) → is_some (get same_global globals.new (j, q)) ≡ (is_some (get same_global globals.old (j, q)) || ((j == k) && same_name q object))) }
{
    globals.insert((k, object), true)?;
    Ok(())
}

/// What the lines so far list.
#[derive(Debug, Drop)]
pub struct Index {
    /// The first listing of each object.
    pub firsts: Firsts,
    /// What the fields hold.
    pub fields: Fields,
    /// What the globals hold.
    pub globals: Globals,
    /// The object whose fields' lines come next: the last that was listed, if it was for the first time.
    pub owner: Option<Name>,
    /// How many lines there are.
    pub lines: u32,
    /// How many of them list an object.
    pub objects: u32,
    /// The bytes of these objects.
    pub bytes: u64,
}

impl Index {
    /// What no line lists.
    pub fn nothing(alloc: Global) -> Index
        ensures lists { Indexes result [] }
        ensures small { IsSmall result }
    {
        Index {
            firsts: HashMap::new(alloc),
            fields: HashMap::new(alloc),
            globals: HashMap::new(alloc),
            owner: None,
            lines: 0,
            objects: 0,
            bytes: 0,
        }
    }

    /// The first listing of the object, if one lists it.
    pub fn first(&self, object: Name) -> Option<Listing>
        ensures { result ≡ get same_name self.now.firsts object }
    {
        self.firsts.get(&object).copied()
    }

    /// What the field of the object holds, if a line says so.
    pub fn held(&self, object: Name, i: u32) -> Option<Name>
        ensures { result ≡ get same_field self.now.fields (object, i) }
    {
        self.fields.get(&(object, i)).copied()
    }

    /// Whether a line says that the global holds the object.
    pub fn is_global_to(&self, k: u32, object: Name) -> bool
        ensures { result ≡ is_some (get same_global self.now.globals (k, object)) }
    {
        self.globals.contains_key(&(k, object))
    }

    /// A line lists the object.
    fn add_object(&mut self, object: Name, bytes: u32, rank: u32) -> Result<(), AllocError>
        requires small { IsSmall self.old }
        requires few { self.old.lines < 2 ^ 28 }
        ensures { OnOk result (AddsObject self.old self.new object bytes rank) }
    {
        let listing = Listing {
            line: self.lines,
            rank,
        };
        let is_first = put_first(&mut self.firsts, object, listing)?;
        self.owner = if is_first { Some(object) } else { None };
        self.lines += 1;
        self.objects += 1;
        self.bytes += u64::from(bytes);
        Ok(())
    }

    /// A line says what a field holds.
    fn add_field(&mut self, i: u32, object: Name) -> Result<(), AllocError>
        requires { self.old.lines < 2 ^ 28 }
        ensures { OnOk result (AddsField self.old self.new i object) }
    {
        if let Some(p) = self.owner {
            put_field(&mut self.fields, p, i, object)?;
        }
        self.lines += 1;
        Ok(())
    }

    /// A line says what a global holds.
    fn add_global(&mut self, k: u32, object: Name) -> Result<(), AllocError>
        requires { self.old.lines < 2 ^ 28 }
        ensures { OnOk result (AddsGlobal self.old self.new k object) }
    {
        put_global(&mut self.globals, k, object)?;
        self.lines += 1;
        Ok(())
    }

    /// A line lists nothing.
    fn skip(&mut self) -> Result<(), AllocError>
        requires { self.old.lines < 2 ^ 28 }
        ensures { OnOk result (self.new ≡ record self.old { lines = self.old.lines + 1 }) }
    {
        self.lines += 1;
        Ok(())
    }

    /// A line says this.
    fn add_item(&mut self, item: Item) -> Result<(), AllocError>
        requires small { IsSmall self.old }
        requires few { self.old.lines < 2 ^ 28 }
        ensures lists { OnOk result ((items : List (Option Item)) → Indexes self.old items → Indexes self.new (items ++ Some item ∷ [])) }
        ensures small { OnOk result (IsSmall self.new) }
        ensures lines { OnOk result (self.new.lines ≡ self.old.lines + 1) }
    {
        match item {
            Item::Global(k, x) => self.add_global(k, x.object),
            Item::ObjectByGlobal(object, bytes, rank, _) => self.add_object(object, bytes, rank),
            Item::ObjectByParent(object, bytes, rank, _, _) => self.add_object(object, bytes, rank),
            Item::Field(i, x) => self.add_field(i, x.object),
            Item::Total(_, _) => self.skip(),
        }
    }

    /// A line more, and what it says.
    pub fn add(&mut self, line: Option<Item>) -> Result<(), AllocError>
        requires small { IsSmall self.old }
        requires few { self.old.lines < 2 ^ 28 }
        ensures lists { OnOk result ((items : List (Option Item)) → Indexes self.old items → Indexes self.new (items ++ line ∷ [])) }
        ensures small { OnOk result (IsSmall self.new) }
        ensures lines { OnOk result (self.new.lines ≡ self.old.lines + 1) }
    {
        match line {
            Some(item) => self.add_item(item),
            None => self.skip(),
        }
    }
}
