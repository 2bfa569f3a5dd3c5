//! What comes of a row, which is the text of a script.

use row_pages::{Page, Rows, bytes_of};
use script_lines::{
    EventLine, EventWords, RuleLine, RuleWords, ScriptLines, ScriptRefusal, read_script,
};
use std::str;
use tars_base::MAX_FILE;

/// Rows of scripts.
pub struct ScriptRows;

/// Adds a text, or how long it is where it is long.
fn put_short(page: &mut Page, text: &str) {
    match text.len() {
        0..=64 => page.add(text),
        length => page.show(format_args!("{length} bytes")),
    }
}

/// Adds bytes in brackets, in hexadecimal digits where they are no text or control something.
fn put_text(page: &mut Page, bytes: &[u8]) {
    page.add("[");
    match str::from_utf8(bytes) {
        Ok(text) if bytes.iter().all(|byte| *byte >= b' ') => put_short(page, text),
        _ => page.add_hex(bytes),
    }
    page.add("]");
}

fn put_rule(page: &mut Page, rule: RuleWords<'_>) {
    match rule {
        RuleWords::Value(text) => {
            page.add(" value ");
            put_text(page, text);
        }
        RuleWords::Echo(name) => {
            page.add(" echo ");
            put_text(page, name);
        }
        RuleWords::Add(left, right) => {
            page.add(" add ");
            put_text(page, left);
            put_text(page, right);
        }
        RuleWords::Code(number) => page.show(format_args!(" code {number}")),
        RuleWords::Silent => page.add(" silent"),
    }
}

fn put_rules(page: &mut Page, rules: &[RuleLine<'_>]) {
    for line in rules {
        page.show(format_args!("; {} rule ", line.at));
        put_text(page, line.func);
        put_rule(page, line.rule);
    }
}

fn put_bytes(page: &mut Page, bytes: Option<u32>) {
    match bytes {
        Some(bytes) => page.show(format_args!(" {bytes}")),
        None => page.add(" all"),
    }
}

fn put_event(page: &mut Page, event: EventWords<'_>) {
    match event {
        EventWords::Call { func, args } => {
            page.add("call ");
            put_text(page, func);
            put_text(page, args);
        }
        EventWords::Serve { bytes } => {
            page.add("serve");
            put_bytes(page, bytes);
        }
        EventWords::Work => page.add("work"),
        EventWords::Deliver { bytes } => {
            page.add("deliver");
            put_bytes(page, bytes);
        }
        EventWords::Close => page.add("close"),
    }
}

/// Adds the events, or how many there are where they are many.
fn put_events(page: &mut Page, events: &[EventLine<'_>]) {
    if events.len() > 8 {
        return page.show(format_args!("; {} events", events.len()));
    }
    for line in events {
        page.show(format_args!("; {} ", line.at));
        put_event(page, line.event);
    }
}

fn put_headers(page: &mut Page, script: &ScriptLines<'_>) {
    page.add("client ");
    put_text(page, script.client.as_bytes());
    if let Some(server) = script.server {
        page.add(" server ");
        put_text(page, server.as_bytes());
    }
    page.show(format_args!("; {} interface ", script.interface.at));
    put_text(page, script.interface.module);
    put_text(page, script.interface.name);
    page.add("; object ");
    put_text(page, script.object.id);
    put_text(page, script.object.host);
    page.show(format_args!(" {} {}", script.object.port, script.object.timeout));
    if let Some(queue) = script.queue {
        page.show(format_args!("; queue {} {}", queue.capacity, queue.timeout));
    }
}

fn put_script(page: &mut Page, text: &[u8]) {
    if text.len() > MAX_FILE {
        return page.add("too long");
    }
    match read_script(page.alloc(), text) {
        Ok(script) => {
            put_headers(page, &script);
            put_rules(page, &script.rules);
            put_events(page, &script.events);
        }
        Err(ScriptRefusal::Fault(fault)) => {
            page.show(format_args!("fault {} {}", fault.why.number(), fault.at));
        }
        Err(ScriptRefusal::Memory) => page.fail(),
    }
}

impl Rows for ScriptRows {
    /// A row is `script TEXT`. Every other is given back.
    fn put_row(page: &mut Page, row: &str) {
        let Some(text) = row.strip_prefix("script ") else {
            return page.add(row);
        };
        match bytes_of(page.alloc(), text) {
            Ok(bytes) => put_script(page, &bytes),
            Err(_) => page.fail(),
        }
    }
}
