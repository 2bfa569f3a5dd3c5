//! Functions and interfaces of many parameters, and the members that stand for them.

ghost use Rattle.std.specs.Prelude.{◌≡◌, IfOk, OnOk};
ghost use Rattle.law_tables.specs.Interfaces.{plain_interface};
ghost use Rattle.tars_model.specs.Declarations.{nothing_declared, with_interface};
ghost use Rattle.tars_model.specs.Schemas.{InterfaceFits};

use row_pages::Page;
use std::alloc::{AllocError, Global};
use tars_model::{
    Boxed, FuncDesc, InterfaceDesc, List, Member, Name, Param, Schema, Ty, args_of, reply_of,
};

/// The most parameters of a function.
const MAX_PARAMS: usize = 64;

/// `map<string, byte>`
fn map_type(alloc: Global) -> Result<Ty, AllocError> {
    let key = Boxed::new(alloc, Ty::Text)?;
    let value = Boxed::new(alloc, Ty::Byte)?;
    Ok(Ty::Map(key, value))
}

fn param(alloc: Global, out: bool) -> Result<Param, AllocError> {
    let name = Name::from_slice(alloc, b"p")?;
    let ty = map_type(alloc)?;
    Ok(Param { name, ty, out })
}

/// So many parameters, by turns in and out.
fn params(alloc: Global, count: u8) -> Result<List<Param>, AllocError> {
    let mut params = List::new(alloc);
    for index in 0..count {
        params.push(param(alloc, index % 2 == 1)?)?;
    }
    Ok(params)
}

/// A function that returns a map, and has so many of them as parameters.
fn func(alloc: Global, count: u8) -> Result<FuncDesc, AllocError> {
    let name = Name::from_slice(alloc, b"f")?;
    let params = params(alloc, count)?;
    Ok(FuncDesc {
        name,
        ret: Some(map_type(alloc)?),
        params,
    })
}

/// Adds the tags of members, and a `?` after that of one that is no map.
fn put_tags(page: &mut Page, members: &[Member]) {
    for member in members {
        page.add(" ");
        page.show(member.tag);
        if !matches!(&member.ty, Ty::Map(_, _)) {
            page.add("?");
        }
    }
}

/// Adds the tags of a call's arguments and of its reply.
fn put_func(page: &mut Page, func: &FuncDesc) {
    if func.params.as_slice().len() > MAX_PARAMS {
        return page.add("too many");
    }
    page.add("arguments");
    match args_of(page.alloc(), func) {
        Ok(members) => put_tags(page, members.as_slice()),
        Err(_) => page.fail(),
    }
    page.add(", reply");
    match reply_of(page.alloc(), func) {
        Ok(members) => put_tags(page, members.as_slice()),
        Err(_) => page.fail(),
    }
}

/// `members COUNT`: the tags of a call's arguments and of its reply.
pub fn put_members(page: &mut Page, count: &str) {
    match func(page.alloc(), count.parse::<u8>().unwrap_or(0)) {
        Ok(func) => put_func(page, &func),
        Err(_) => page.fail(),
    }
}

fn interface(alloc: Global, name: &[u8]) -> Result<InterfaceDesc, AllocError>
    ensures { IfOk result (λ i. i ≡ plain_interface name.now) }
{
    let module = Name::from_slice(alloc, b"M")?;
    let name = Name::from_slice(alloc, name)?;
    Ok(InterfaceDesc {
        module,
        name,
        funcs: List::new(alloc),
    })
}

/// Adds an interface of this name, and returns its number.
fn add(alloc: Global, schema: &mut Schema, name: &[u8]) -> Result<u32, AllocError>
    requires { InterfaceFits schema.old (plain_interface name.now) }
    ensures { OnOk result (schema.new ≡ with_interface schema.old (plain_interface name.now)) }
{
    schema.add_interface(interface(alloc, name)?)
}

/// Adds three interfaces, and returns their numbers.
fn add_three(alloc: Global, schema: &mut Schema) -> Result<[u32; 3], AllocError>
    requires { schema.old ≡ nothing_declared }
{
    let first = add(alloc, schema, b"A")?;
    let second = add(alloc, schema, b"B")?;
    let third = add(alloc, schema, b"C")?;
    Ok([first, second, third])
}

/// Adds the numbers of the first three interfaces.
fn put_three(page: &mut Page, schema: &mut Schema)
    requires { schema.old ≡ nothing_declared }
{
    match add_three(page.alloc(), schema) {
        Ok(numbers) => {
            let [first, second, third] = numbers;
            let kept = schema.interfaces().len();
            page.show(format_args!("{first} {second} {third} of {kept}"));
        }
        Err(_) => page.fail(),
    }
}

/// `interfaces`: the numbers of the first three that are added.
pub fn put_interfaces(page: &mut Page) {
    let mut schema = Schema::empty(page.alloc());
    put_three(page, &mut schema);
}
