//! What servants answer.

ghost use Rattle.std.specs.Prelude.{◌≡◌, ◌<◌, ◌^◌, length, IfOk, IfSome, OnOk};
ghost use Rattle.packet_tables.specs.Servants.{SuitsAt};

use crate::counter::Counter;
use crate::fields::put_response_fields;
use crate::interfaces::{Opened, open};
use crate::rules::table_of;
use row_pages::{Page, bytes_of, split_word};
use rpc_packet::{Packets, Request, Response};
use servant_core::{Servant, answer, runs_go_on};
use std::alloc::{AllocError, Global};
use tars_model::{Bytes8, List, Schema};

/// The name of every servant.
const NAME: &[u8] = b"A.B.C";

/// The most bytes of a row's body.
const MOST: usize = 1 << 20;

/// The bytes of digits, or none for `-` and for what is no digits.
fn body_of(alloc: Global, digits: &str) -> Bytes8
    ensures { length result < 2 ^ 32 }
{
    match hex::decode(alloc, digits.as_bytes()) {
        Ok(bytes) if bytes.len() <= MOST => Bytes8::from_vec(bytes),
        _ => Bytes8::from_vec(Vec::new(alloc)),
    }
}

/// `VERSION TYPE MESSAGE ID SERVANT FUNCTION BODY`, without a timeout and maps.
fn request_of(alloc: Global, text: &str) -> Result<Request, AllocError>
    ensures { IfOk result (λ request. length request.body < 2 ^ 32) }
{
    let (version, text) = split_word(text);
    let (kind, text) = split_word(text);
    let (message, text) = split_word(text);
    let (id, text) = split_word(text);
    let (servant, text) = split_word(text);
    let (func, body) = split_word(text);
    Ok(Request {
        version: version.parse::<i16>().unwrap_or(0),
        kind: kind.parse::<i8>().unwrap_or(0),
        message: message.parse::<i32>().unwrap_or(0),
        id: id.parse::<i32>().unwrap_or(0),
        servant: Bytes8::from_slice(alloc, servant.as_bytes())?,
        func: Bytes8::from_slice(alloc, func.as_bytes())?,
        body: body_of(alloc, body),
        timeout: 0,
        context: List::new(alloc),
        status: List::new(alloc),
    })
}

/// What a servant answers to a request.
pub fn answered<S: Servant>(
    alloc: Global,
    packets: &Packets,
    opened: &Opened,
    servant: &mut S,
    request: &Request,
) -> Result<Option<Response>, AllocError>
    requires interface { opened.now.interface < length opened.now.schema.interfaces }
    requires suited { SuitsAt opened.now.schema opened.now.interface (S.meaning servant.old) }
    requires short { length request.now.body < 2 ^ 32 }
    ensures { OnOk result (SuitsAt opened.now.schema opened.now.interface (S.meaning servant.new)) }
{
    runs_go_on();
    let Opened { schema, interface } = opened;
    answer(
        alloc, packets, schema, *interface, NAME, servant, request, 0,
    )
}

/// Adds what is answered to a request.
fn put_answer<S: Servant>(
    page: &mut Page,
    packets: &Packets,
    opened: &Opened,
    servant: &mut S,
    text: &str,
) -> Result<(), AllocError>
    requires interface { opened.now.interface < length opened.now.schema.interfaces }
    requires suited { SuitsAt opened.now.schema opened.now.interface (S.meaning servant.old) }
    ensures { OnOk result (SuitsAt opened.now.schema opened.now.interface (S.meaning servant.new)) }
{
    let request = request_of(page.alloc(), text)?;
    match answered(page.alloc(), packets, opened, servant, &request)? {
        Some(response) => put_response_fields(page, &response),
        None => page.add("none"),
    }
    Ok(())
}

/// Adds what is answered to requests, one after another.
fn put_all<S: Servant>(
    page: &mut Page,
    opened: &Opened,
    servant: &mut S,
    requests: &str,
) -> Result<(), AllocError>
    requires interface { opened.now.interface < length opened.now.schema.interfaces }
    requires suited { SuitsAt opened.now.schema opened.now.interface (S.meaning servant.old) }
{
    let packets = Packets::new(page.alloc())?;
    let mut first = true;
    for request in requests.split("; ") {
        if !first {
            page.add("; ");
        }
        put_answer(page, &packets, opened, servant, request)?;
        first = false;
    }
    Ok(())
}

/// Adds what a table answers, and how many calls it handled.
fn put_of_table(
    page: &mut Page,
    opened: &Opened,
    rules: &str,
    requests: &str,
) -> Result<(), AllocError>
    requires { opened.now.interface < length opened.now.schema.interfaces }
{
    let mut table = table_of(page, &opened.schema, opened.interface, rules)?;
    put_all(page, opened, &mut table, requests)?;
    page.show(format_args!("; handled {}", table.handled()));
    Ok(())
}

/// Adds what a boxed servant answers.
fn put_of_box(
    page: &mut Page,
    opened: &Opened,
    mut servant: Box<dyn Servant + Send + Drop>,
    requests: &str,
) -> Result<(), AllocError>
    requires interface { opened.now.interface < length opened.now.schema.interfaces }
    requires suited { SuitsAt opened.now.schema opened.now.interface (⟦<Box<dyn Servant + Send + Drop> as Servant>⟧.meaning servant) }
{
    put_all(page, opened, &mut servant, requests)
}

/// Adds what a table answers in a box.
fn put_of_boxed_table(
    page: &mut Page,
    opened: &Opened,
    rules: &str,
    requests: &str,
) -> Result<(), AllocError>
    requires { opened.now.interface < length opened.now.schema.interfaces }
{
    let table = table_of(page, &opened.schema, opened.interface, rules)?;
    put_of_box(page, opened, Box::new(page.alloc(), table)?, requests)
}

/// A counter of the calls of an interface.
fn counter_of(alloc: Global, opened: &Opened) -> Result<Counter, AllocError>
    requires { opened.now.interface < length opened.now.schema.interfaces }
    ensures { IfOk result (λ counter. SuitsAt opened.now.schema opened.now.interface (⟦<Counter as Servant>⟧.meaning counter)) }
{
    let schema = opened.schema.copy(alloc)?;
    Ok(Counter::new(schema, opened.interface))
}

/// Adds what a counter answers.
fn put_of_counter(page: &mut Page, opened: &Opened, requests: &str) -> Result<(), AllocError>
    requires { opened.now.interface < length opened.now.schema.interfaces }
{
    let mut counter = counter_of(page.alloc(), opened)?;
    put_all(page, opened, &mut counter, requests)
}

/// Adds what a counter answers in a box.
fn put_of_boxed_counter(page: &mut Page, opened: &Opened, requests: &str) -> Result<(), AllocError>
    requires { opened.now.interface < length opened.now.schema.interfaces }
{
    let counter = counter_of(page.alloc(), opened)?;
    put_of_box(page, opened, Box::new(page.alloc(), counter)?, requests)
}

/// Adds what the servant of a word answers.
fn put_of_servant(
    page: &mut Page,
    opened: &Opened,
    servant: &str,
    rules: &str,
    requests: &str,
) -> Result<(), AllocError>
    requires { opened.now.interface < length opened.now.schema.interfaces }
{
    match servant {
        "table" => put_of_table(page, opened, rules, requests),
        "boxed_table" => put_of_boxed_table(page, opened, rules, requests),
        "counter" => put_of_counter(page, opened, requests),
        "boxed_counter" => put_of_boxed_counter(page, opened, requests),
        _ => Ok(page.add("no servant")),
    }
}

/// `SERVANT FILE => RULES => REQUESTS`: what a servant answers to requests, one after another, by the rules of its functions.
pub fn put_answers(page: &mut Page, text: &str) -> Result<(), AllocError> {
    let (servant, text) = split_word(text);
    let (file, text) = text.split_once(" => ").unwrap_or((text, ""));
    let (rules, requests) = text.split_once(" => ").unwrap_or((text, ""));
    let file = bytes_of(page.alloc(), file)?;
    match open(page.alloc(), &file) {
        Some(opened) => put_of_servant(page, &opened, servant, rules, requests),
        None => Ok(page.add("no interface")),
    }
}
