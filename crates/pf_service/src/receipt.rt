use pf_base::Reply;

/// What a caller is told of its event: the namespace, the event's place in the namespace's transcript, counted from 0,
/// and the reply.
#[derive(Debug, PartialEq, Eq, Drop)]
pub struct Receipt {
    pub ns: u32,
    pub place: u64,
    pub reply: Reply,
}
