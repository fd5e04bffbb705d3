// Frees large buffers.

/// A smaller buffer is freed as it is: the C library has it in its heap in any case.
const LARGE: usize = 4096;

/// Frees a large buffer. The C library maps a large buffer from the system and gives it back once it is freed. But when
/// glibc frees a mapped buffer, it raises its threshold to that size and serves later buffers of up to this size from
/// its heap, where they stay resident as holes. So the buffer is shrunk before it is freed.
pub fn release<T: Drop>(mut buffer: Vec<T>) {
    buffer.clear();
    if buffer.capacity() < LARGE {
        return;
    }
    // A capacity of 0 would free it whole.
    buffer.shrink_to(1);
}
