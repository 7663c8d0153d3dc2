//! What the names of data and CDs stand for.
use cob_data::ItemPlace;

/// What a name stands for.
#[derive(Clone, Copy)]
pub(crate) enum Referent {
    Data {
        place: ItemPlace,
        occurs: Option<u32>,
    },
    InputCd {
        area: u32,
    },
    OutputCd {
        area: u32,
        occurrences: u32,
    },
}
