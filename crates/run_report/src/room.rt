use script_session::{LinkLog, Row};

/// About how many bytes a line takes beside names, values and packets.
const LINE: usize = 64;

/// About how many bytes a report's lines take, with two digits for each byte of a packet. That it is right is promised by no
/// clause: where it is too small, the text grows.
pub fn room_of(rows: &[Row], links: &[LinkLog]) -> usize {
    let mut room = rows.len().saturating_mul(LINE);
    for link in links {
        room = room.saturating_add(link_room(link));
    }
    room
}

fn link_room(link: &LinkLog) -> usize {
    sent_room(link).saturating_add(got_room(link))
}

fn sent_room(link: &LinkLog) -> usize {
    let mut room = 0;
    for row in link.sent.as_slice() {
        room = row_room(row.frame.as_slice().len()).saturating_add(room);
    }
    room
}

fn got_room(link: &LinkLog) -> usize {
    let mut room = 0;
    for row in link.got.as_slice() {
        room = row_room(row.packet.as_slice().len()).saturating_add(room);
    }
    room
}

fn row_room(packet: usize) -> usize {
    packet.saturating_mul(2).saturating_add(LINE)
}
