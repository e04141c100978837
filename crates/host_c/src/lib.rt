// What the turbine's host in C calls (include/mikuzerao.h): each function of crate host under its name, with its clauses. C passes
// a byte slice as a pointer and a length.
#![tactic(auto)]

ghost use Rattle.std.specs.Prelude.{◌≡◌};
ghost use Rattle.numeral.specs.NumberRules.{Bytes};
ghost use Rattle.host.specs.Host.{verdict, thread_mark, thread_bound};

// The reader's verdict on the bytes: 0, or the refusal.
#[unsafe(no_mangle)]
pub extern "C" fn mikuzerao_verdict(bytes: &[u8]) -> u32
    ensures { (result ≡ verdict bytes.now) × Bytes bytes.now }
{
    host::mikuzerao_verdict(bytes)
}

// The thread that a thread's mark protects, 255 for none; 100,000 and the number on a refusal: the reader's, then 15.
#[unsafe(no_mangle)]
pub extern "C" fn mikuzerao_mark(bytes: &[u8], thread: u32) -> u32
    ensures { (result ≡ thread_mark bytes.now thread) × Bytes bytes.now }
{
    host::mikuzerao_mark(bytes, thread)
}

// A thread's bound, 0 for none; 100,000 and the number on a refusal: the reader's, then 15.
#[unsafe(no_mangle)]
pub extern "C" fn mikuzerao_bound(bytes: &[u8], thread: u32) -> u32
    ensures { (result ≡ thread_bound bytes.now thread) × Bytes bytes.now }
{
    host::mikuzerao_bound(bytes, thread)
}
