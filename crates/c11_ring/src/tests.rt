use crate::make_ring;
use std::test::Fail;

#[test]
fn one_packet_goes_through_one_place(rt: HostRuntime) -> Result<(), Fail> {
    let wanted = "\
        #include <stdatomic.h>\n\
        #include <threads.h>\n\
        #include <assert.h>\n\
        #include <stdio.h>\n\
        int ring[1];\n\
        atomic_int head;\n\
        atomic_int tail;\n\
        int producer(void *a) {\n\
        while (0 - atomic_load_explicit(&tail, memory_order_acquire) >= 1);\n\
        ring[0] = 0;\n\
        atomic_store_explicit(&head, 1, memory_order_release);\n\
        return 0;\n\
        }\n\
        int consumer(void *a) {\n\
        while (atomic_load_explicit(&head, memory_order_acquire) <= 0);\n\
        assert(ring[0] == 0);\n\
        atomic_store_explicit(&tail, 1, memory_order_release);\n\
        return 0;\n\
        }\n\
        int main(void) {\n\
        thrd_t p, c;\n\
        thrd_create(&p, producer, NULL);\n\
        thrd_create(&c, consumer, NULL);\n\
        thrd_join(p, NULL);\n\
        thrd_join(c, NULL);\n\
        printf(\"%d\\n\", ring[0]);\n\
        return 0;\n\
        }\n\
        ";
    let text = make_ring(rt.alloc(), 0, 1)?;
    assert_eq!(rt; text.as_slice(), wanted.as_bytes());
    Ok(())
}

// The third packet takes the first place again, its value begins again at 0, and only the producer releases.
#[test]
fn packets_values_and_places_wrap(rt: HostRuntime) -> Result<(), Fail> {
    let wanted = "\
        #include <stdatomic.h>\n\
        #include <threads.h>\n\
        #include <assert.h>\n\
        #include <stdio.h>\n\
        int ring[2];\n\
        atomic_int head;\n\
        atomic_int tail;\n\
        int producer(void *a) {\n\
        while (0 - atomic_load_explicit(&tail, memory_order_acquire) >= 2);\n\
        ring[0] = 998;\n\
        atomic_store_explicit(&head, 1, memory_order_release);\n\
        while (1 - atomic_load_explicit(&tail, memory_order_acquire) >= 2);\n\
        ring[1] = 999;\n\
        atomic_store_explicit(&head, 2, memory_order_release);\n\
        while (2 - atomic_load_explicit(&tail, memory_order_acquire) >= 2);\n\
        ring[0] = 0;\n\
        atomic_store_explicit(&head, 3, memory_order_release);\n\
        return 0;\n\
        }\n\
        int consumer(void *a) {\n\
        while (atomic_load_explicit(&head, memory_order_acquire) <= 0);\n\
        assert(ring[0] == 998);\n\
        atomic_store_explicit(&tail, 1, memory_order_relaxed);\n\
        while (atomic_load_explicit(&head, memory_order_acquire) <= 1);\n\
        assert(ring[1] == 999);\n\
        atomic_store_explicit(&tail, 2, memory_order_relaxed);\n\
        while (atomic_load_explicit(&head, memory_order_acquire) <= 2);\n\
        assert(ring[0] == 0);\n\
        atomic_store_explicit(&tail, 3, memory_order_relaxed);\n\
        return 0;\n\
        }\n\
        int main(void) {\n\
        thrd_t p, c;\n\
        thrd_create(&p, producer, NULL);\n\
        thrd_create(&c, consumer, NULL);\n\
        thrd_join(p, NULL);\n\
        thrd_join(c, NULL);\n\
        printf(\"%d\\n\", ring[0]);\n\
        return 0;\n\
        }\n\
        ";
    let text = make_ring(rt.alloc(), 998, 3)?;
    assert_eq!(rt; text.as_slice(), wanted.as_bytes());
    Ok(())
}
