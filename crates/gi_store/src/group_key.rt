use crate::key::Key;

/// Where a group of guards and a clause is stored: under which key, and how many of the last
/// literals of what is stored there are its guards'.
#[derive(Clone, Copy)]
pub(crate) struct GroupKey {
    pub key: Key,
    pub guards: usize,
}
