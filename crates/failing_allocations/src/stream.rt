//! Both ends of a stream, each in a thread, over TCP: objects leave and come home.
use far_store::{FarStore, StoreFault};
use far_stream::{StreamFault, StreamParcel, StreamStore, serve_store};
use std::alloc::{AllocError, Global};
use std::net::{Net, TcpListener, TcpStream};
use std::thread::{self, Threads};
use test_devices::ends;

/// How many bytes each object has. The longer ones are dropped in several pieces where there is no memory for them, and the
/// fifth is the one for which the server's list grows.
const LENGTHS: [usize; 5] = [1, 64, 5_000, 3, 10_000];

/// The faults that were met; after each the same was asked again.
#[derive(Drop)]
pub struct Met {
    pub memory: u32,
    pub refused: u32,
    pub others: u32,
}

impl Met {
    fn note(&mut self, fault: StoreFault) {
        let count = match fault {
            StoreFault::Memory => &mut self.memory,
            StoreFault::Refused => &mut self.refused,
            _ => &mut self.others,
        };
        *count = count.saturating_add(1);
    }
}

/// The byte at a place of an object.
fn byte_at(place: usize) -> u8 {
    (place % 251) as u8
}

/// An object of so many bytes.
fn object(alloc: Global, count: usize) -> Result<Vec<u8>, AllocError> {
    let mut bytes = Vec::with_capacity(alloc, count)?;
    for place in 0..count {
        bytes.push(byte_at(place))?;
    }
    Ok(bytes)
}

/// Whether these are the bytes of an object of so many.
fn is_object(bytes: &[u8], count: usize) -> bool {
    for place in 0..bytes.len() {
        if bytes[place] != byte_at(place) {
            return false;
        }
    }
    bytes.len() == count
}

/// An object leaves. After a fault the bytes that came back leave.
fn put<S: FarStore>(store: &mut S, bytes: Vec<u8>, met: &mut Met) -> Option<S::Parcel> {
    match store.put(bytes) {
        Ok(parcel) => Some(parcel),
        Err((fault, back)) => {
            met.note(fault);
            store.put(back).ok()
        }
    }
}

/// Whether an object comes home, at once or after a fault.
fn get<S: FarStore>(store: &mut S, parcel: &S::Parcel, count: usize, met: &mut Met) -> bool {
    match store.get(parcel) {
        Ok(bytes) => is_object(&bytes, count),
        Err(fault) => {
            met.note(fault);
            match store.get(parcel) {
                Ok(bytes) => is_object(&bytes, count),
                Err(_) => false,
            }
        }
    }
}

/// All objects leave, one after the other, and are kept together.
fn all_leave(
    alloc: Global,
    store: &mut StreamStore<TcpStream>,
    met: &mut Met,
) -> Option<Vec<StreamParcel>> {
    let mut parcels = Vec::with_capacity(alloc, LENGTHS.len()).ok()?;
    for count in LENGTHS {
        let bytes = object(alloc, count).ok()?;
        parcels.push(put(store, bytes, met)?).ok()?;
    }
    Some(parcels)
}

/// Whether all come home.
fn all_come_home(
    store: &mut StreamStore<TcpStream>,
    parcels: &[StreamParcel],
    met: &mut Met,
) -> bool {
    for (parcel, count) in parcels.iter().zip(LENGTHS) {
        if !get(store, parcel, count, met) {
            return false;
        }
    }
    true
}

/// What came of the objects.
fn there_and_back(
    alloc: Global,
    store: &mut StreamStore<TcpStream>,
    met: &mut Met,
) -> &'static str {
    let Some(parcels) = all_leave(alloc, store, met) else {
        return "not all left";
    };
    if !all_come_home(store, &parcels, met) {
        return "not all came home";
    }
    for parcel in parcels {
        store.forget(parcel);
    }
    "all came home"
}

/// Serves one client.
fn serve(alloc: Global, mut stream: TcpStream) -> Result<(), StreamFault> {
    serve_store(alloc, &mut stream)
}

/// How a stream went.
#[derive(Drop)]
pub struct Course {
    /// What came of the objects.
    pub came: &'static str,
    /// The faults that were met.
    pub met: Met,
    /// The faults that the client counted.
    pub counted: u64,
    /// What came of the server.
    pub served: &'static str,
}

/// What came of the objects and of the server.
pub fn run<R>(rt: &R, alloc: Global) -> Course
where
    R: Net<Listener = TcpListener, Stream = TcpStream> + Threads,
{
    let mut met = Met {
        memory: 0,
        refused: 0,
        others: 0,
    };
    let Ok((near, far)) = ends(rt) else {
        return Course {
            came: "no stream",
            met,
            counted: 0,
            served: "not served",
        };
    };
    let Ok(server) = thread::spawn(rt, move || serve(alloc, far)) else {
        return Course {
            came: "no server",
            met,
            counted: 0,
            served: "not served",
        };
    };
    let mut store = StreamStore::new(alloc, near);
    let came = there_and_back(alloc, &mut store, &mut met);
    let counted = store.faults();
    drop(store);
    let served = match server.join(rt) {
        Ok(()) => "served",
        Err(_) => "not served",
    };
    Course {
        came,
        met,
        counted,
        served,
    }
}
