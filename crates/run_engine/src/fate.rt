use rpc_packet::Response;

/// What ended a call.
#[derive(Drop)]
pub(crate) enum Fate {
    /// The packet of this number, from 1, of this node; and the response that it is.
    Replied {
        node: u32,
        packet: u64,
        response: Response,
    },
    Closed,
}
