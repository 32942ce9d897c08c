//! What may be sent to threads and shared by them.
use crate::{Kind, PageErr, PageFault};
use std::marker::{Send, Sync};
use wap_base::Text;
use wap_deck::good::GoodDeck;
use wap_verify::Verified;
use wap_world::site::{Page, Shared};

fn crosses<T: Send + Sync>() {}

/// Stands only where each type that is named here may be sent to threads and shared by them.
pub fn all_cross() {
    crosses::<Shared<GoodDeck>>();
    crosses::<Shared<Verified>>();
    crosses::<Shared<Text>>();
    crosses::<Page>();
    crosses::<Kind>();
    crosses::<PageFault>();
    crosses::<PageErr>();
}
