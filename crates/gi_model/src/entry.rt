use crate::calls::Call;
use crate::replies::Reply;

/// One entry of a history: a call and its reply.
#[derive(Clone, Copy)]
pub struct EntryRef<'a> {
    pub call: &'a Call,
    pub reply: &'a Reply,
}
