use crate::edition::Edition;
use std::marker::Model;
use td_base::Value;

/// Proof that a version was published: a value, all values published up to it, and whether the
/// history ends there.
#[derive(Drop)]
pub struct Receipt<V: Value> {
    pub(crate) edition: Edition<V>,
}

impl<V: Value> Model for Receipt<V> {
    ghost use Rattle.publication.specs.Histories.{values, ended_in};
    ghost use Rattle.publication.specs.Views.{ReceiptView};

    ghost Value = { ReceiptView V };

    ghost view = { λ r. record {
      pair = r.edition.prefix.book;
      list = values r.edition.prefix.log;
      ended = ended_in r.edition.prefix.log;
    } };
}
