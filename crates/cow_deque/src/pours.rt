ghost use Rattle.std.specs.Prelude.{◌≡◌, ◌≤◌, ◌^◌, length, replicate, None};
ghost use Rattle.cow_row.specs.Places.{somes};
ghost use Rattle.cow_deque.specs.Rings.{turned, IsRing};

use crate::gaps::lesser;
use cow_buf::Buf;

/// The `len` items from `head` on move into another buffer, which is empty, and stand there from the first place on.
/// Two moves of memory: of the items up to the end of the buffer, and of those that go on at its beginning.
pub fn pour<T: Drop>(buf: &mut Buf<T>, head: usize, len: usize, wider: &mut Buf<T>)
    requires ring { IsRing buf.old head len }
    requires room { len ≤ length wider.old }
    requires small { length wider.old ≤ 2 ^ 32 }
    requires empty { wider.old ≡ replicate (length wider.old) None }
    ensures left { buf.new ≡ replicate (length buf.new) None }
    ensures ring { IsRing wider.new 0 len }
    ensures items { somes (turned 0 wider.new) ≡ somes (turned head buf.old) }
    ensures places { length wider.new ≡ length wider.old }
{
    let first = lesser(len, buf.capacity() - head);
    buf.move_into(head, wider, 0, first);
    buf.move_into(0, wider, first, len - first);
}
