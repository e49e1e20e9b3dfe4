use crate::Events;

#[test]
fn has_each_event(rt: HostRuntime) {
    let events = [
        (Events::UMOUNT, 1),
        (Events::CREATE, 2),
        (Events::UNLINK, 4),
        (Events::MKDIR, 8),
        (Events::RENAME, 16),
        (Events::LINK, 32),
        (Events::CLOSE, 64),
        (Events::WRITE, 128),
        (Events::FSYNC, 256),
        (Events::TRUNCATE, 512),
        (Events::FULL, 1024),
    ];
    for (event, number) in events {
        assert_eq!(rt; event.number(), number);
        assert_eq!(rt;
            Events::DEFAULT.has(event),
            number == 1 || number == 256 || number == 1024
        );
    }
}
