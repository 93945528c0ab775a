ghost use Rattle.std.specs.Prelude.{◌≡◌, ◌<◌};
ghost use Rattle.c11_shadow.specs.Epochs.{packed, thread_of, number_of};

/// An access: its thread in the high 32 bits, the number of its event, from 1, in the low 32. 0 stands for no access.
pub type Epoch = u64;

/// The epoch of a thread's event.
pub fn pack(thread: u32, number: u32) -> Epoch
    ensures packed { result ≡ packed thread number }
    ensures thread { thread_of result ≡ thread }
    ensures number { number_of result ≡ number }
{
    thread as u64 * 4294967296 + number as u64
}

/// The thread of an epoch.
pub fn epoch_thread(epoch: Epoch) -> u32
    ensures { result ≡ thread_of epoch }
{
    (epoch / 4294967296) as u32
}

/// The number of an epoch.
pub fn epoch_number(epoch: Epoch) -> u32
    ensures { result ≡ number_of epoch }
{
    (epoch % 4294967296) as u32
}
