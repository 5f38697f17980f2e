ghost use Rattle.http_request.specs.Scans.{IsScanned};
ghost use Rattle.stretches.specs.Fronts.{LooksAt};

use http_request::{Scan, Search, find_end, is_full, is_within, searches};

/// What received bytes begin with.
#[derive(Clone, Copy)]
pub enum Look {
    /// So many bytes can be answered: a head, or bytes that can begin no head.
    Ready(usize),
    /// A part of a head, which was searched up to there.
    Waiting(Scan),
}

/// Looks at the beginning of the bytes, which were searched up to there.
pub fn look_at(bytes: &[u8], scan: Scan) -> Look
    requires { IsScanned bytes.now scan }
    ensures { LooksAt bytes.now result }
{
    searches();
    match find_end(bytes, scan) {
        Search::End(len, feeds) => {
            if is_within(len, feeds) {
                Look::Ready(len)
            } else {
                Look::Ready(bytes.len())
            }
        }
        Search::Open(scan) => {
            if is_full(bytes.len(), scan.feeds) {
                Look::Ready(bytes.len())
            } else {
                Look::Waiting(scan)
            }
        }
    }
}
