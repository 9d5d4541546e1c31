// The items from a token on, as a record is read off them.
ghost use Rattle.std.specs.Prelude.{◌<◌, length};

use crate::Items;

// The items from token i on, which is one of them.
#[derive(Clone, Copy)]
pub struct ItemsFrom<'a> {
    pub items: Items<'a>,
    pub i: usize,
    pub ghost inside: { i < length items.tokens.roles.now },
}
