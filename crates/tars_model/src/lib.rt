//! Types and values of the Tars interface language, and what interface files declare. Plain data, but for a schema,
//! which keeps the rules of interface files: read `specs/Types.antt`, `specs/Values.antt` (the values of a type) and
//! `specs/Schemas.antt` first; `specs/Members.antt` has the members of a call's arguments and of its reply.
#![tactic(auto)]

mod bytes8;
mod const_desc;
mod copied;
mod copying;
mod decl;
mod defaults;
mod enum_desc;
mod fitting;
mod func_desc;
mod interface_desc;
mod key_desc;
mod member;
mod name;
mod schema;
mod struct_desc;
mod struct_name;
mod ty;
mod value;

pub use bytes8::Bytes8;
pub use const_desc::ConstDesc;
pub use copying::copy_value;
pub use decl::Decl;
pub use defaults::{default_of, first_number};
pub use enum_desc::{EnumDesc, Item};
pub use fitting::fits;
pub use func_desc::{FuncDesc, Param, args_of, reply_of};
pub use interface_desc::InterfaceDesc;
pub use key_desc::KeyDesc;
pub use member::Member;
pub use name::Name;
pub use schema::Schema;
pub use sqlite_items::{Boxed, Items as List};
pub use struct_desc::StructDesc;
pub use struct_name::StructName;
pub use ty::Ty;
pub use value::{Pair, Value};
