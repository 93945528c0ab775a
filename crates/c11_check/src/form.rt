use crate::entity::Entity;
use c11_ast::Spot;
use c11_num::CValue;

/// How an argument is written, and what the name in it denotes where it is there for its name. A `spot` is the place of the
/// argument's first token.
#[derive(Clone, Copy, Debug)]
pub enum Form {
    /// `&` before a name, which may have an index.
    Address {
        spot: Spot,
        name: Spot,
        entity: Option<Entity>,
    },
    /// A text, and how many values it asks for: none where a `%` in it begins no conversion.
    Text {
        spot: Spot,
        values: Option<usize>,
    },
    /// A name alone.
    Named {
        spot: Spot,
        entity: Option<Entity>,
    },
    /// A name with an index.
    Element {
        spot: Spot,
        entity: Option<Entity>,
    },
    /// An integer constant.
    Literal {
        spot: Spot,
        value: CValue,
    },
    /// Another expression.
    Other {
        spot: Spot,
    },
}
