//! The symbols of a problem, as other crates see them.

ghost use Rattle.std.specs.Prelude.{◌≡◌, ◌<◌, ◌^◌, length, position};
ghost use Rattle.std.specs.Str.{bytes_eq};

use crate::tables::Tables;
use hp_num::Text;
use std::marker::Model;

/// What the declarations of a problem declare. Contracts see the names of the constants and their sorts, and the names
/// of the functions and their signatures, each in the order of the declarations.
#[derive(Drop)]
pub struct Symbols {
    tables: Tables,
}

impl Model for Symbols {
    ghost use Rattle.std.specs.Prelude.{◌<◌, ◌^◌, length};
    ghost use Rattle.hp_sorts.specs.declared.tables.Tables.{Tables as TablesValue};

    ghost Value = { TablesValue };

    ghost view = { λ symbols. symbols.tables };

    ghost invariant = { λ symbols. (length symbols.tables.constants.names < 2 ^ 32) × (length symbols.tables.functions < 2 ^ 32) };
}

impl Symbols {
    /// The symbols of these tables, which have fewer than 2^32 constants and as few functions.
    pub(crate) fn new(tables: Tables) -> Symbols
        requires constants { length tables.constants.names < 2 ^ 32 }
        requires functions { length tables.functions < 2 ^ 32 }
        ensures { result ≡ tables }
    {
        Symbols { tables }
    }

    /// The place of a name among the constants in the order of their declarations, counted from 0; `None` where the name
    /// is no constant. Takes no memory.
    pub fn constant(&self, name: &Text) -> Option<u32>
        ensures { result ≡ position (bytes_eq name.now) self.now.constants.names }
    {
        let place = self.tables.constants.names.position(name.as_slice())?;
        Some(place as u32)
    }

    /// The place of a name among the functions in the order of their declarations, counted from 0; `None` where the name
    /// is no function. Takes no memory.
    pub fn function(&self, name: &Text) -> Option<u32>
        ensures { result ≡ position (bytes_eq name.now) self.now.functions }
    {
        let place = self.tables.functions.position(name.as_slice())?;
        Some(place as u32)
    }
}
