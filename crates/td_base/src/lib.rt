//! The base of all other crates except `change_index`: owned bytes, lists and short texts that
//! contracts see as lists. It also has the traits of the outside, with one view and one relation
//! per call (`specs/Views.antt`, `specs/Outside.antt`), and their versions in memory. Digits,
//! lengths and names that several formats share are here as well. [`read_to_end`] and
//! [`write_whole`] are the main calls (`specs/Transfer.antt`). It depends on no crate of the
//! workspace.
#![tactic(auto)]

// Owned lists and short texts, and the traits of values that represent lists or have a rank.
mod byte_list;
mod item_list;
mod no_memory;
mod ranked;
mod short_text;
mod value;

// Numbers and names, as several formats write and read them.
mod digits;
mod name_forms;

// Texts of header fields.
pub mod texts;

// Streams, files and connections, and whole transfers over them.
mod joined;
mod outside;
mod report;
mod source_fault;
mod transfer;

// Doors, other servers, networks, and jobs in threads.
mod door;
mod network;
mod running;
mod spawner;
mod start_thread;
mod turn;
mod upstream;
mod work;

// In-memory versions of the outside.
mod memory_conn;
mod memory_door;
mod memory_network;
mod memory_sink;
mod memory_source;
mod memory_spawner;
mod memory_store;
mod memory_upstream;
mod piece_sizes;

// Wrappers of the outside with calls that fail as chosen.
mod failing_calls;
mod faulty;
mod faulty_conn;
mod faulty_door;
mod faulty_network;
mod faulty_spawner;
mod faulty_upstream;

// Theorems, and which types may cross threads.
pub mod laws;
mod send_sync;

pub use byte_list::Bytes;
pub use digits::{put_decimal, put_hex, put_sized, read_decimal};
pub use door::{Accepted, Door, DoorAnswer};
pub use faulty::Faulty;
pub use faulty_conn::FaultyConn;
pub use faulty_door::FaultyDoor;
pub use item_list::Items;
pub use joined::Joined;
pub use memory_conn::MemoryConn;
pub use memory_door::{DoorStep, HandedBackConn, MemoryDoor};
pub use memory_network::{MemoryNetwork, Opened};
pub use memory_sink::MemorySink;
pub use memory_source::MemorySource;
pub use memory_spawner::MemorySpawner;
pub use memory_store::MemoryStore;
pub use memory_upstream::MemoryUpstream;
pub use name_forms::{
    MOST_FILE_NAME_BYTES, MOST_IDENTIFIER_BYTES, MOST_LABEL_BYTES, MOST_PATH_BYTES, is_file_name,
    is_identifier, is_label, is_path_word,
};
pub use network::{Made, Network};
pub use no_memory::NoMemory;
pub use outside::{Conn, FileRead, ReadStep, Sink, Source, Store, WriteStep};
pub use ranked::Ranked;
pub use report::{Ask, End, MOST_PLACES, Places, Report, Role};
pub use running::Running;
pub use short_text::ShortText;
pub use source_fault::SourceFault;
pub use spawner::{Begin, Spawner};
pub use start_thread::start_by;
pub use transfer::{Written, read_to_end, send_whole, write_whole};
pub use upstream::{Exchange, Exchanged, Upstream};
pub use value::Value;
pub use work::Work;

/// The token of a place in a history: the place in decimal, a dash and hex digits.
pub type Token = ShortText<32>;
