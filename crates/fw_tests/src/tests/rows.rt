//! The rows on which the built program is run: scripts and what they print, as in tests/rows.

/// A script and what it prints.
#[derive(Drop)]
pub(super) struct Row {
    pub(super) name: &'static str,
    pub(super) script: &'static str,
    pub(super) output: &'static str,
}

pub(super) const STAT_OF_ROOT: Row = Row {
    name: "stat-of-root",
    script: "mount 1000 0\nread p 0\ntake 0\ndo 2\nwrite 0\nsettle 0\ncall stat /\nread p 0\ntake 0\ndo 4\nwrite 0\n\
            settle 0\n",
    output: "mounted\nread 2 INIT 56\ntaken 2 held\ndone 2 0 80\nwritten 2 0\nsettled 2 0\ncall 1\nread 4 GETATTR 56\n\
            taken 4 held\ndone 4 0 120\nwritten 4 0\nanswer 1 0 dir 1 0 1\nsettled 4 0\n",
};

static FIRST: [Row; 8] = [
    Row {
        name: "abort-after-do-and-remount",
        script: "mount 1000 0\nread p 0\ntake 0\ndo 2\nwrite 0\nsettle 0\ncall mkdir /a\ncall stat /\nread p 0\n\
            take 0\ndo 4\nabort\ncall stat /\nread p 0\nwrite 0\nagain 4\nmount 1000 0\nread p 0\ntake 0\ndo 2\n\
            write 0\nsettle 0\ncall stat /a\nread p 0\ntake 0\ndo 4\nwrite 0\nsettle 0\nread p 0\ntake 0\ndo 6\n\
            write 0\nsettle 0\nshow\n",
        output: "mounted\nread 2 INIT 56\ntaken 2 held\ndone 2 0 80\nwritten 2 0\nsettled 2 0\ncall 1\ncall 2\n\
            read 4 MKDIR 50\ntaken 4 held\ndone 4 0 144\naborted\nanswer 1 103\nanswer 2 103\ncall 3\nanswer 3 107\n\
            refused 4 NotReady\nrefused 2 NoSuch\nrefused 6 NoCopy\nmounted\nread 2 INIT 56\ntaken 2 held\n\
            done 2 0 80\nwritten 2 0\nsettled 2 0\ncall 4\nread 4 LOOKUP 42\ntaken 4 held\ndone 4 0 144\nwritten 4 0\n\
            settled 4 0\nread 6 GETATTR 56\ntaken 6 held\ndone 6 0 120\nwritten 6 0\nanswer 4 0 dir 2 0 1\n\
            settled 6 0\nkernel 2:2:1\nserver 2:2:1\n",
    },
    Row {
        name: "batch-forget",
        script: "mount 1000 0\nread p 0\ntake 0\ndo 2\nwrite 0\nsettle 0\ncall mkdir /a\nread p 0\ntake 0\ndo 4\n\
            write 0\nsettle 0\ncall mkdir /b\nread p 0\ntake 0\ndo 6\nwrite 0\nsettle 0\ndrop 1 a\ndrop 1 b\nevict 2\n\
            evict 3\nread f 65\nread f 2\ntake 0\n",
        output: "mounted\nread 2 INIT 56\ntaken 2 held\ndone 2 0 80\nwritten 2 0\nsettled 2 0\ncall 1\n\
            read 4 MKDIR 50\ntaken 4 held\ndone 4 0 144\nwritten 4 0\nanswer 1 0\nsettled 4 0\ncall 2\n\
            read 6 MKDIR 50\ntaken 6 held\ndone 6 0 144\nwritten 6 0\nanswer 2 0\nsettled 6 0\ndropped\ndropped\n\
            evicted 2 1\nevicted 3 1\nrefused 2 NoSuch\nread 8 BATCH_FORGET 80\ntaken 8 forgot\n",
    },
    Row {
        name: "call-before-init-is-answered",
        script: "mount 1000 0\ncall stat /a\n",
        output: "mounted\nrefused 4 NotReady\n",
    },
    Row {
        name: "call-before-mount",
        script: "call stat /\n",
        output: "refused 4 NotReady\n",
    },
    Row {
        name: "clock-and-validity-limits",
        script: "mount 86400001 0\ntick 9007199254740992\ntick 9007199254740991\ntick 1\n",
        output: "refused 9 BadTime\nrefused 9 BadTime\nnow 9007199254740991\nrefused 9 BadTime\n",
    },
    Row {
        name: "copy-in-flight-holds-node-and-id",
        script: "mount 1000 0\nread p 0\ntake 0\ndo 2\nwrite 0\nsettle 0\ncall mkdir /a\nread p 0\ntake 0\ndo 4\n\
            write 0\nsettle 0\ntick 1000\ncall stat /a\nread p 0\ntake 0\ndo 6\nagain 6\nwrite 0\nread p 0\ntake 0\n\
            do 8\nwrite 1\ndrop 1 a\nevict 2\nread f 1\ntake 0\nshow\nwrite 0\nsettle 2\nshow\ncall mkdir /b\n\
            read p 0\ntake 0\ndo 12\nwrite 0\nshow\n",
        output: "mounted\nread 2 INIT 56\ntaken 2 held\ndone 2 0 80\nwritten 2 0\nsettled 2 0\ncall 1\n\
            read 4 MKDIR 50\ntaken 4 held\ndone 4 0 144\nwritten 4 0\nanswer 1 0\nsettled 4 0\nnow 1000\ncall 2\n\
            read 6 LOOKUP 42\ntaken 6 held\ndone 6 0 144\nagain 6 144\nwritten 6 0\nread 8 GETATTR 56\ntaken 8 held\n\
            done 8 0 120\nwritten 8 0\nanswer 2 0 dir 2 0 1\ndropped\nevicted 2 2\nread 10 FORGET 48\n\
            taken 10 forgot\nkernel\nserver 2:1:1\nwritten 6 2\nsettled 6 2\nkernel\nserver\ncall 3\n\
            read 12 MKDIR 50\ntaken 12 held\ndone 12 0 144\nwritten 12 0\nanswer 3 0\nkernel 2:2:1\nserver 2:2:1\n",
    },
    Row {
        name: "counts-of-two-lookups-and-exact-forget",
        script: "mount 1000 0\nread p 0\ntake 0\ndo 2\nwrite 0\nsettle 0\ncall mkdir /a\nread p 0\ntake 0\ndo 4\n\
            write 0\nsettle 0\ntick 1000\ncall stat /a\ncall stat /a\nread p 0\ntake 0\ndo 6\nwrite 0\nsettle 0\n\
            read p 0\ntake 0\ndo 8\nwrite 0\nsettle 0\nevict 2\nread p 0\ntake 0\ndo 10\nwrite 0\nsettle 0\nread p 0\n\
            take 0\ndo 12\nwrite 0\nsettle 0\nshow\ndrop 1 a\nevict 2\nread f 1\ntake 0\nshow\n",
        output: "mounted\nread 2 INIT 56\ntaken 2 held\ndone 2 0 80\nwritten 2 0\nsettled 2 0\ncall 1\n\
            read 4 MKDIR 50\ntaken 4 held\ndone 4 0 144\nwritten 4 0\nanswer 1 0\nsettled 4 0\nnow 1000\ncall 2\n\
            call 3\nread 6 LOOKUP 42\ntaken 6 held\ndone 6 0 144\nwritten 6 0\nsettled 6 0\nread 8 LOOKUP 42\n\
            taken 8 held\ndone 8 0 144\nwritten 8 0\nsettled 8 0\nrefused 5 Busy\nread 10 GETATTR 56\ntaken 10 held\n\
            done 10 0 120\nwritten 10 0\nanswer 2 0 dir 2 0 1\nsettled 10 0\nread 12 GETATTR 56\ntaken 12 held\n\
            done 12 0 120\nwritten 12 0\nanswer 3 0 dir 2 0 1\nsettled 12 0\nkernel 2:1:3\nserver 2:1:3\ndropped\n\
            evicted 2 3\nread 14 FORGET 48\ntaken 14 forgot\nkernel\nserver\n",
    },
    Row {
        name: "do-after-abort",
        script: "mount 1000 0\nread p 0\ntake 0\ndo 2\nwrite 0\nsettle 0\ncall mkdir /a\nread p 0\ntake 0\nabort\n\
            do 4\nmount 1000 0\nread p 0\ntake 0\ndo 2\nwrite 0\nsettle 0\ncall stat /a\nread p 0\ntake 0\ndo 4\n\
            write 0\nsettle 0\nread p 0\ntake 0\ndo 6\nwrite 0\nsettle 0\nshow\n",
        output: "mounted\nread 2 INIT 56\ntaken 2 held\ndone 2 0 80\nwritten 2 0\nsettled 2 0\ncall 1\n\
            read 4 MKDIR 50\ntaken 4 held\naborted\nanswer 1 103\ndone 4 0 lost\nmounted\nread 2 INIT 56\n\
            taken 2 held\ndone 2 0 80\nwritten 2 0\nsettled 2 0\ncall 2\nread 4 LOOKUP 42\ntaken 4 held\n\
            done 4 0 144\nwritten 4 0\nsettled 4 0\nread 6 GETATTR 56\ntaken 6 held\ndone 6 0 120\nwritten 6 0\n\
            answer 2 0 dir 2 0 1\nsettled 6 0\nkernel 2:1:1\nserver 2:1:1\n",
    },
];

static SECOND: [Row; 8] = [
    Row {
        name: "empty-script",
        script: "",
        output: "",
    },
    Row {
        name: "fatal-signals-unread-and-read",
        script: "mount 1000 0\nread p 0\ntake 0\ndo 2\nwrite 0\nsettle 0\ncall mkdir /a\nintr 1 fatal\nread p 0\n\
            call mkdir /a\ncall stat /\nread p 0\nintr 2 fatal\nread p 0\nread i\nread p 0\ntake 0\ntake 0\ndo 6\n\
            write 0\n",
        output: "mounted\nread 2 INIT 56\ntaken 2 held\ndone 2 0 80\nwritten 2 0\nsettled 2 0\ncall 1\n\
            interrupted 1 dequeued\nanswer 1 4\nrefused 2 NoSuch\ncall 2\ncall 3\nread 6 MKDIR 50\n\
            interrupted 2 queued\nrefused 3 InterruptFirst\nread 7 INTERRUPT 48\nread 8 GETATTR 56\ntaken 6 held\n\
            taken 7 marked\ndone 6 4 16\nwritten 6 0\nanswer 2 4\n",
    },
    Row {
        name: "id-used-again-while-older-reply-is-kept",
        script: "mount 1000 0\nread p 0\ntake 0\ndo 2\nwrite 0\nsettle 0\ncall mkdir /a\nread p 0\ntake 0\ndo 4\n\
            write 0\ndrop 1 a\nevict 2\nread f 1\ntake 0\nagain 4\ncall mkdir /b\nread p 0\ntake 0\ndo 8\nagain 4\n\
            settle 0\nwrite 0\nshow\n",
        output: "mounted\nread 2 INIT 56\ntaken 2 held\ndone 2 0 80\nwritten 2 0\nsettled 2 0\ncall 1\n\
            read 4 MKDIR 50\ntaken 4 held\ndone 4 0 144\nwritten 4 0\nanswer 1 0\ndropped\nevicted 2 1\n\
            read 6 FORGET 48\ntaken 6 forgot\nrefused 6 NoCopy\ncall 2\nread 8 MKDIR 50\ntaken 8 held\ndone 8 0 144\n\
            refused 6 NoCopy\nsettled 4 0\nwritten 8 0\nanswer 2 0\nkernel 2:2:1\nserver 2:2:1\n",
    },
    Row {
        name: "interrupt-mark-belongs-to-the-request",
        script: "mount 1000 0\nread p 0\ntake 0\ndo 2\nwrite 0\nsettle 0\ncall mkdir /a\nread p 0\ntake 0\ndo 4\n\
            write 0\nsettle 0\ntick 1000\ncall stat /a\nread p 0\ntake 0\ndo 6\nintr 2 soft\nread i\ntake 0\nwrite 0\n\
            intr 2 soft\nread p 0\nread i\ntake 0\ntake 0\ndo 8\nwrite 0\n",
        output: "mounted\nread 2 INIT 56\ntaken 2 held\ndone 2 0 80\nwritten 2 0\nsettled 2 0\ncall 1\n\
            read 4 MKDIR 50\ntaken 4 held\ndone 4 0 144\nwritten 4 0\nanswer 1 0\nsettled 4 0\nnow 1000\ncall 2\n\
            read 6 LOOKUP 42\ntaken 6 held\ndone 6 0 144\ninterrupted 2 queued\nread 7 INTERRUPT 48\ntaken 7 ignored\n\
            written 6 0\ninterrupted 2 flagged\nread 8 GETATTR 56\nread 9 INTERRUPT 48\ntaken 8 held\ntaken 9 marked\n\
            done 8 4 16\nwritten 8 0\nanswer 2 4\n",
    },
    Row {
        name: "link-counts-the-same-node",
        script: "mount 1000 0\nread p 0\ntake 0\ndo 2\nwrite 0\nsettle 0\ncall create /a\nread p 0\ntake 0\ndo 4\n\
            write 0\nsettle 0\ncall link /a /b\nread p 0\ntake 0\ndo 6\nwrite 0\nsettle 0\ncall stat /b\nread p 0\n\
            take 0\ndo 8\nwrite 0\nsettle 0\nshow\n",
        output: "mounted\nread 2 INIT 56\ntaken 2 held\ndone 2 0 80\nwritten 2 0\nsettled 2 0\ncall 1\n\
            read 4 CREATE 58\ntaken 4 held\ndone 4 0 160\nwritten 4 0\nanswer 1 0\nsettled 4 0\ncall 2\n\
            read 6 LINK 50\ntaken 6 held\ndone 6 0 144\nwritten 6 0\nanswer 2 0\nsettled 6 0\ncall 3\n\
            read 8 GETATTR 56\ntaken 8 held\ndone 8 0 120\nwritten 8 0\nanswer 3 0 file 2 0 2\nsettled 8 0\n\
            kernel 2:1:2\nserver 2:1:2\n",
    },
    Row {
        name: "list-and-list-from-an-offset",
        script: "mount 1000 0\nread p 0\ntake 0\ndo 2\nwrite 0\nsettle 0\ncall mkdir /a\nread p 0\ntake 0\ndo 4\n\
            write 0\nsettle 0\ncall create /bb\nread p 0\ntake 0\ndo 6\nwrite 0\nsettle 0\ncall list / 0\nread p 0\n\
            take 0\ndo 8\nwrite 0\nsettle 0\ncall list / 2\nread p 0\ntake 0\ndo 10\nwrite 0\nsettle 0\n",
        output: "mounted\nread 2 INIT 56\ntaken 2 held\ndone 2 0 80\nwritten 2 0\nsettled 2 0\ncall 1\n\
            read 4 MKDIR 50\ntaken 4 held\ndone 4 0 144\nwritten 4 0\nanswer 1 0\nsettled 4 0\ncall 2\n\
            read 6 CREATE 59\ntaken 6 held\ndone 6 0 160\nwritten 6 0\nanswer 2 0\nsettled 6 0\ncall 3\n\
            read 8 READDIR 80\ntaken 8 held\ndone 8 0 80\nwritten 8 0\nanswer 3 0 a:1:dir bb:2:file\nsettled 8 0\n\
            call 4\nread 10 READDIR 80\ntaken 10 held\ndone 10 0 16\nwritten 10 0\nanswer 4 0\nsettled 10 0\n",
    },
    Row {
        name: "lookup-frame-in-hex",
        script: "mount 1000 0\nread p 0\ntake 0\ndo 2\nwrite 0\nsettle 0\ncall stat /a\nread p 0\n",
        output: "mounted\nread 2 INIT 56\n\
            frame 380000001a0000000200000000000000000000000000000000000000000000000000000000000000070000001f0000000000000001200400\n\
            taken 2 held\ndone 2 0 80\n\
            frame 50000000000000000200000000000000070000001f0000000000000001200400000000000010000001000000000000000000000000000000000000000000000000000000000000000000000000000000\n\
            written 2 0\nsettled 2 0\ncall 1\nread 4 LOOKUP 42\n\
            frame 2a0000000100000004000000000000000100000000000000000000000000000000000000000000006100\n",
    },
    Row {
        name: "lookup-in-a-file-open-release-and-gap",
        script: "mount 1000 0\nread p 0\ntake 0\ndo 2\nwrite 0\nsettle 0\ncall create /f\nread p 0\ntake 0\ndo 4\n\
            write 0\nsettle 0\ncall stat /f/x\nread p 0\ntake 0\ndo 6\nwrite 0\nsettle 0\ncall open /f\nread p 0\n\
            take 0\ndo 8\nwrite 0\nsettle 0\ncall close 1\nread p 0\ntake 0\ndo 10\nwrite 0\nsettle 0\n\
            call write 3 3 ff\nread p 0\ntake 0\ndo 12\nwrite 0\nsettle 0\ncall read 3 0 10\nread p 0\ntake 0\ndo 14\n\
            write 0\nsettle 0\n",
        output: "mounted\nread 2 INIT 56\ntaken 2 held\ndone 2 0 80\nwritten 2 0\nsettled 2 0\ncall 1\n\
            read 4 CREATE 58\ntaken 4 held\ndone 4 0 160\nwritten 4 0\nanswer 1 0\nsettled 4 0\ncall 2\n\
            read 6 LOOKUP 42\ntaken 6 held\ndone 6 20 16\nwritten 6 0\nanswer 2 20\nsettled 6 0\ncall 3\n\
            read 8 OPEN 48\ntaken 8 held\ndone 8 0 32\nwritten 8 0\nanswer 3 0\nsettled 8 0\ncall 4\nanswer 4 0\n\
            read 10 RELEASE 64\ntaken 10 held\ndone 10 0 16\nwritten 10 0\nsettled 10 0\ncall 5\nread 12 WRITE 81\n\
            taken 12 held\ndone 12 0 24\nwritten 12 0\nanswer 5 0 1\nsettled 12 0\ncall 6\nread 14 READ 80\n\
            taken 14 held\ndone 14 0 20\nwritten 14 0\nanswer 6 0 000000ff\nsettled 14 0\n",
    },
];

static THIRD: [Row; 7] = [
    Row {
        name: "mount-busy-with-an-open-file",
        script: "mount 1000 0\nread p 0\ntake 0\ndo 2\nwrite 0\nsettle 0\ncall create /a\nread p 0\ntake 0\ndo 4\n\
            write 0\nsettle 0\nmount 1000 0\ncall close 1\nmount 1000 0\nread p 0\n",
        output: "mounted\nread 2 INIT 56\ntaken 2 held\ndone 2 0 80\nwritten 2 0\nsettled 2 0\ncall 1\n\
            read 4 CREATE 58\ntaken 4 held\ndone 4 0 160\nwritten 4 0\nanswer 1 0\nsettled 4 0\nrefused 5 Busy\n\
            call 2\nanswer 2 0\nmounted\nread 2 INIT 56\n",
    },
    Row {
        name: "name-lengths-and-path-faults",
        script: "mount 1000 0\nread p 0\ntake 0\ndo 2\nwrite 0\nsettle 0\n\
            call stat /nnnnnnnnnnnnnnnnnnnnnnnnnnnnnnnnnnnnnnnnnnnnnnnnnnnnnnnnnnnnnnnnnnnnnnnnnnnnnnnnnnnnnnnnnnnnnnnnnnnnnnnnnnnnnnnnnnnnnnnnnnnnnnnnnnnnnnnnnnnnnnnnnnnnnnnnnnnnnnnnnnnnnnnnnnnnnnnnnnnnnnnnnnnnnnnnnnnnnnnnnnnnnnnnnnnnnnnnnnnnnnnnnnnnnnnnnnnnnnnnnnnnnnnnnnnnnnn\n\
            call stat /nnnnnnnnnnnnnnnnnnnnnnnnnnnnnnnnnnnnnnnnnnnnnnnnnnnnnnnnnnnnnnnnnnnnnnnnnnnnnnnnnnnnnnnnnnnnnnnnnnnnnnnnnnnnnnnnnnnnnnnnnnnnnnnnnnnnnnnnnnnnnnnnnnnnnnnnnnnnnnnnnnnnnnnnnnnnnnnnnnnnnnnnnnnnnnnnnnnnnnnnnnnnnnnnnnnnnnnnnnnnnnnnnnnnnnnnnnnnnnnnnnnnnnnnnnnnnnnn\n\
            call stat /a//b\nread p 0\nread p 0\n",
        output: "mounted\nread 2 INIT 56\ntaken 2 held\ndone 2 0 80\nwritten 2 0\nsettled 2 0\ncall 1\ncall 2\n\
            answer 2 36\ncall 3\nanswer 3 22\nread 4 LOOKUP 296\nrefused 2 NoSuch\n",
    },
    Row {
        name: "no-copy-after-settle",
        script: "mount 1000 0\nread p 0\ntake 0\ndo 2\nwrite 0\nsettle 0\ncall mkdir /a\nread p 0\ntake 0\ndo 4\n\
            write 0\nsettle 0\ntick 1000\ncall stat /a\nread p 0\ntake 0\ndo 6\nagain 6\nwrite 0\nwrite 0\nshow\n\
            settle 0\nagain 6\n",
        output: "mounted\nread 2 INIT 56\ntaken 2 held\ndone 2 0 80\nwritten 2 0\nsettled 2 0\ncall 1\n\
            read 4 MKDIR 50\ntaken 4 held\ndone 4 0 144\nwritten 4 0\nanswer 1 0\nsettled 4 0\nnow 1000\ncall 2\n\
            read 6 LOOKUP 42\ntaken 6 held\ndone 6 0 144\nagain 6 144\nwritten 6 0\nwritten 6 2\nkernel 2:1:2\n\
            server 2:1:3\nsettled 6 0\nrefused 6 NoCopy\n",
    },
    Row {
        name: "no-such-call-binding-or-node",
        script: "mount 1000 0\nread p 0\ntake 0\ndo 2\nwrite 0\nsettle 0\nintr 1 soft\ndrop 1 a\nevict 1\n",
        output: "mounted\nread 2 INIT 56\ntaken 2 held\ndone 2 0 80\nwritten 2 0\nsettled 2 0\nrefused 2 NoSuch\n\
            refused 2 NoSuch\nrefused 2 NoSuch\n",
    },
    Row {
        name: "read-of-unlinked-file-and-late-release",
        script: "mount 1000 0\nread p 0\ntake 0\ndo 2\nwrite 0\nsettle 0\ncall create /a\nread p 0\ntake 0\ndo 4\n\
            write 0\nsettle 0\ncall write 1 0 6869\nread p 0\ntake 0\ndo 6\nwrite 0\nsettle 0\ncall unlink /a\n\
            read p 0\ntake 0\ndo 8\nwrite 0\nsettle 0\ncall read 1 0 10\nread p 0\ncall close 1\nread p 0\ntake 0\n\
            do 10\nwrite 0\nsettle 0\nread p 0\ntake 0\ndo 12\nwrite 0\nsettle 0\nevict 2\ncall read 1 0 1\n",
        output: "mounted\nread 2 INIT 56\ntaken 2 held\ndone 2 0 80\nwritten 2 0\nsettled 2 0\ncall 1\n\
            read 4 CREATE 58\ntaken 4 held\ndone 4 0 160\nwritten 4 0\nanswer 1 0\nsettled 4 0\ncall 2\n\
            read 6 WRITE 82\ntaken 6 held\ndone 6 0 24\nwritten 6 0\nanswer 2 0 2\nsettled 6 0\ncall 3\n\
            read 8 UNLINK 42\ntaken 8 held\ndone 8 0 16\nwritten 8 0\nanswer 3 0\nsettled 8 0\ncall 4\n\
            read 10 READ 80\ncall 5\nanswer 5 0\nrefused 2 NoSuch\ntaken 10 held\ndone 10 0 18\nwritten 10 0\n\
            answer 4 0 6869\nsettled 10 0\nread 12 RELEASE 64\ntaken 12 held\ndone 12 0 16\nwritten 12 0\n\
            settled 12 0\nevicted 2 1\ncall 6\nanswer 6 9\n",
    },
    Row {
        name: "refused-copy-gives-count-back",
        script: "mount 1000 0\nread p 0\ntake 0\ndo 2\nwrite 0\nsettle 0\ncall mkdir /a\nread p 0\ntake 0\ndo 4\n\
            write 0\nsettle 0\ntick 1000\ncall stat /a\nread p 0\ntake 0\ndo 6\nagain 6\nwrite 0\nwrite 0\nshow\n\
            settle 0\nshow\nsettle 0\nshow\n",
        output: "mounted\nread 2 INIT 56\ntaken 2 held\ndone 2 0 80\nwritten 2 0\nsettled 2 0\ncall 1\n\
            read 4 MKDIR 50\ntaken 4 held\ndone 4 0 144\nwritten 4 0\nanswer 1 0\nsettled 4 0\nnow 1000\ncall 2\n\
            read 6 LOOKUP 42\ntaken 6 held\ndone 6 0 144\nagain 6 144\nwritten 6 0\nwritten 6 2\nkernel 2:1:2\n\
            server 2:1:3\nsettled 6 0\nkernel 2:1:2\nserver 2:1:3\nsettled 6 2\nkernel 2:1:2\nserver 2:1:2\n",
    },
    Row {
        name: "remount-drops-what-was-held",
        script: "mount 1000 0\nread p 0\ntake 0\ndo 2\nwrite 0\nsettle 0\ncall mkdir /a\nread p 0\ntake 0\nabort\n\
            abort\nmount 1000 0\ndo 4\nread p 0\ntake 0\ndo 2\nwrite 0\nsettle 0\ncall stat /a\nread p 0\ntake 0\n\
            do 4\nwrite 0\nsettle 0\n",
        output: "mounted\nread 2 INIT 56\ntaken 2 held\ndone 2 0 80\nwritten 2 0\nsettled 2 0\ncall 1\n\
            read 4 MKDIR 50\ntaken 4 held\naborted\nanswer 1 103\nrefused 4 NotReady\nmounted\nrefused 2 NoSuch\n\
            read 2 INIT 56\ntaken 2 held\ndone 2 0 80\nwritten 2 0\nsettled 2 0\ncall 2\nread 4 LOOKUP 42\n\
            taken 4 held\ndone 4 0 144\nwritten 4 0\nanswer 2 2\nsettled 4 0\n",
    },
];

static FOURTH: [Row; 7] = [
    Row {
        name: "rename-rmdir-and-unlink-refusals",
        script: "mount 1000 0\nread p 0\ntake 0\ndo 2\nwrite 0\nsettle 0\ncall mkdir /a\nread p 0\ntake 0\ndo 4\n\
            write 0\nsettle 0\ncall mkdir /a/b\nread p 0\ntake 0\ndo 6\nwrite 0\nsettle 0\ncall rename /a /a/b/c\n\
            read p 0\ntake 0\ndo 8\nwrite 0\nsettle 0\ncall rmdir /a\nread p 0\ntake 0\ndo 10\nwrite 0\nsettle 0\n\
            call unlink /a\nread p 0\ntake 0\ndo 12\nwrite 0\nsettle 0\ncall rename /a/b /c\nread p 0\ntake 0\ndo 14\n\
            write 0\nsettle 0\n",
        output: "mounted\nread 2 INIT 56\ntaken 2 held\ndone 2 0 80\nwritten 2 0\nsettled 2 0\ncall 1\n\
            read 4 MKDIR 50\ntaken 4 held\ndone 4 0 144\nwritten 4 0\nanswer 1 0\nsettled 4 0\ncall 2\n\
            read 6 MKDIR 50\ntaken 6 held\ndone 6 0 144\nwritten 6 0\nanswer 2 0\nsettled 6 0\ncall 3\n\
            read 8 RENAME 52\ntaken 8 held\ndone 8 22 16\nwritten 8 0\nanswer 3 22\nsettled 8 0\ncall 4\n\
            read 10 RMDIR 42\ntaken 10 held\ndone 10 39 16\nwritten 10 0\nanswer 4 39\nsettled 10 0\ncall 5\n\
            read 12 UNLINK 42\ntaken 12 held\ndone 12 21 16\nwritten 12 0\nanswer 5 21\nsettled 12 0\ncall 6\n\
            read 14 RENAME 52\ntaken 14 held\ndone 14 0 16\nwritten 14 0\nanswer 6 0\nsettled 14 0\n",
    },
    Row {
        name: "soft-signal-and-eagain",
        script: "mount 1000 0\nread p 0\ntake 0\ndo 2\nwrite 0\nsettle 0\ncall mkdir /a\nintr 1 soft\nread p 0\n\
            read p 0\nread i\ntake 1\nwrite 0\nread i\ntake 0\ndo 4\nwrite 0\nsettle 1\ntake 0\nwrite 0\nread i\n",
        output: "mounted\nread 2 INIT 56\ntaken 2 held\ndone 2 0 80\nwritten 2 0\nsettled 2 0\ncall 1\n\
            interrupted 1 flagged\nread 4 MKDIR 50\nrefused 3 InterruptFirst\nread 5 INTERRUPT 48\ntaken 5 again\n\
            written 5 0\nread 5 INTERRUPT 48\ntaken 4 held\ndone 4 0 144\nwritten 4 0\nanswer 1 0\nsettled 4 0\n\
            taken 5 again\nwritten 5 2\nrefused 2 NoSuch\n",
    },
    Row {
        name: "stat-of-missing-name",
        script: "mount 1000 0\nread p 0\ntake 0\ndo 2\nwrite 0\nsettle 0\ncall stat /a\nread p 0\ntake 0\ndo 4\n\
            write 0\n",
        output: "mounted\nread 2 INIT 56\ntaken 2 held\ndone 2 0 80\nwritten 2 0\nsettled 2 0\ncall 1\n\
            read 4 LOOKUP 42\ntaken 4 held\ndone 4 0 144\nwritten 4 0\nanswer 1 2\n",
    },
    STAT_OF_ROOT,
    Row {
        name: "unlink-overtakes-lookup-reply",
        script: "mount 1000 0\nread p 0\ntake 0\ndo 2\nwrite 0\nsettle 0\ncall create /a\nread p 0\ntake 0\ndo 4\n\
            write 0\nsettle 0\ntick 1000\ncall stat /a\ncall unlink /a\nread p 0\nread p 0\ntake 0\ntake 0\ndo 6\n\
            do 8\nwrite 1\nwrite 0\nsettle 0\nsettle 0\nread p 0\ntake 0\ndo 10\nwrite 0\nsettle 0\ntick 1000\n\
            call stat /a\nread p 0\ntake 0\ndo 12\nwrite 0\nsettle 0\n",
        output: "mounted\nread 2 INIT 56\ntaken 2 held\ndone 2 0 80\nwritten 2 0\nsettled 2 0\ncall 1\n\
            read 4 CREATE 58\ntaken 4 held\ndone 4 0 160\nwritten 4 0\nanswer 1 0\nsettled 4 0\nnow 1000\ncall 2\n\
            call 3\nread 6 LOOKUP 42\nread 8 UNLINK 42\ntaken 6 held\ntaken 8 held\ndone 6 0 144\ndone 8 0 16\n\
            written 8 0\nanswer 3 0\nwritten 6 0\nsettled 8 0\nsettled 6 0\nread 10 GETATTR 56\ntaken 10 held\n\
            done 10 0 120\nwritten 10 0\nanswer 2 0 file 2 0 0\nsettled 10 0\nnow 2000\ncall 4\nread 12 LOOKUP 42\n\
            taken 12 held\ndone 12 0 144\nwritten 12 0\nanswer 4 2\nsettled 12 0\n",
    },
    Row {
        name: "walk-of-two-words-and-expiry",
        script: "mount 500 500\nread p 0\ntake 0\ndo 2\nwrite 0\nsettle 0\ncall mkdir /a\nread p 0\ntake 0\ndo 4\n\
            write 0\nsettle 0\ncall mkdir /a/b\nread p 0\ntake 0\ndo 6\nwrite 0\nsettle 0\ncall stat /a/b\nread p 0\n\
            take 0\ndo 8\nwrite 0\nsettle 0\ncall stat /a/c\nread p 0\ntake 0\ndo 10\nwrite 0\nsettle 0\ntick 499\n\
            call stat /a/c\ntick 1\ncall stat /a/c\nread p 0\ntake 0\ndo 12\nwrite 0\nsettle 0\nread p 0\ntake 0\n\
            do 14\nwrite 0\nsettle 0\n",
        output: "mounted\nread 2 INIT 56\ntaken 2 held\ndone 2 0 80\nwritten 2 0\nsettled 2 0\ncall 1\n\
            read 4 MKDIR 50\ntaken 4 held\ndone 4 0 144\nwritten 4 0\nanswer 1 0\nsettled 4 0\ncall 2\n\
            read 6 MKDIR 50\ntaken 6 held\ndone 6 0 144\nwritten 6 0\nanswer 2 0\nsettled 6 0\ncall 3\n\
            read 8 GETATTR 56\ntaken 8 held\ndone 8 0 120\nwritten 8 0\nanswer 3 0 dir 3 0 1\nsettled 8 0\ncall 4\n\
            read 10 LOOKUP 42\ntaken 10 held\ndone 10 0 144\nwritten 10 0\nanswer 4 2\nsettled 10 0\nnow 499\ncall 5\n\
            answer 5 2\nnow 500\ncall 6\nread 12 LOOKUP 42\ntaken 12 held\ndone 12 0 144\nwritten 12 0\nsettled 12 0\n\
            read 14 LOOKUP 42\ntaken 14 held\ndone 14 0 144\nwritten 14 0\nanswer 6 2\nsettled 14 0\n",
    },
    Row {
        name: "write-past-the-largest-file",
        script: "mount 1000 0\nread p 0\ntake 0\ndo 2\nwrite 0\nsettle 0\ncall create /a\nread p 0\ntake 0\ndo 4\n\
            write 0\nsettle 0\ncall write 1 65530 00000000000000\nread p 0\ntake 0\ndo 6\nwrite 0\nsettle 0\n",
        output: "mounted\nread 2 INIT 56\ntaken 2 held\ndone 2 0 80\nwritten 2 0\nsettled 2 0\ncall 1\n\
            read 4 CREATE 58\ntaken 4 held\ndone 4 0 160\nwritten 4 0\nanswer 1 0\nsettled 4 0\ncall 2\n\
            read 6 WRITE 87\ntaken 6 held\ndone 6 27 16\nwritten 6 0\nanswer 2 27\nsettled 6 0\n",
    },
];

static FIFTH: [Row; 3] = [
    Row {
        name: "listplus-counts-and-binds-each-name",
        script: "mount 1000 0\nread p 0\ntake 0\ndo 2\nwrite 0\nsettle 0\ncall mkdir /a\nread p 0\ntake 0\ndo 4\n\
            write 0\nsettle 0\ncall create /bb\nread p 0\ntake 0\ndo 6\nwrite 0\nsettle 0\ntick 1000\n\
            call listplus / 0\nread p 0\ntake 0\ndo 8\nwrite 0\nsettle 0\nshow\ncall stat /bb\nread p 0\ntake 0\n\
            do 10\nwrite 0\nsettle 0\n",
        output: "mounted\nread 2 INIT 56\ntaken 2 held\ndone 2 0 80\nwritten 2 0\nsettled 2 0\ncall 1\n\
            read 4 MKDIR 50\ntaken 4 held\ndone 4 0 144\nwritten 4 0\nanswer 1 0\nsettled 4 0\ncall 2\n\
            read 6 CREATE 59\ntaken 6 held\ndone 6 0 160\nwritten 6 0\nanswer 2 0\nsettled 6 0\nnow 1000\ncall 3\n\
            read 8 READDIRPLUS 80\ntaken 8 held\ndone 8 0 336\nwritten 8 0\nanswer 3 0 a:1:dir bb:2:file\n\
            settled 8 0\nkernel 2:1:2 3:2:2\nserver 2:1:2 3:2:2\ncall 4\nread 10 GETATTR 56\ntaken 10 held\n\
            done 10 0 120\nwritten 10 0\nanswer 4 0 file 3 0 1\nsettled 10 0\n",
    },
    Row {
        name: "listplus-one-file-under-two-names",
        script: "mount 1000 0\nread p 0\ntake 0\ndo 2\nwrite 0\nsettle 0\ncall create /a\nread p 0\ntake 0\ndo 4\n\
            write 0\nsettle 0\ncall link /a /b\nread p 0\ntake 0\ndo 6\nwrite 0\nsettle 0\ncall listplus / 0\n\
            read p 0\ntake 0\ndo 8\nwrite 0\nsettle 0\nshow\n",
        output: "mounted\nread 2 INIT 56\ntaken 2 held\ndone 2 0 80\nwritten 2 0\nsettled 2 0\ncall 1\n\
            read 4 CREATE 58\ntaken 4 held\ndone 4 0 160\nwritten 4 0\nanswer 1 0\nsettled 4 0\ncall 2\n\
            read 6 LINK 50\ntaken 6 held\ndone 6 0 144\nwritten 6 0\nanswer 2 0\nsettled 6 0\ncall 3\n\
            read 8 READDIRPLUS 80\ntaken 8 held\ndone 8 0 336\nwritten 8 0\nanswer 3 0 a:1:file b:2:file\n\
            settled 8 0\nkernel 2:1:4\nserver 2:1:4\n",
    },
    Row {
        name: "listplus-refused-copy-gives-every-count-back",
        script: "mount 1000 0\nread p 0\ntake 0\ndo 2\nwrite 0\nsettle 0\ncall mkdir /a\nread p 0\ntake 0\ndo 4\n\
            write 0\nsettle 0\ncall create /bb\nread p 0\ntake 0\ndo 6\nwrite 0\nsettle 0\ntick 1000\n\
            call listplus / 0\nread p 0\ntake 0\ndo 8\nagain 8\nwrite 0\nwrite 0\nsettle 0\nshow\nsettle 0\nshow\n",
        output: "mounted\nread 2 INIT 56\ntaken 2 held\ndone 2 0 80\nwritten 2 0\nsettled 2 0\ncall 1\n\
            read 4 MKDIR 50\ntaken 4 held\ndone 4 0 144\nwritten 4 0\nanswer 1 0\nsettled 4 0\ncall 2\n\
            read 6 CREATE 59\ntaken 6 held\ndone 6 0 160\nwritten 6 0\nanswer 2 0\nsettled 6 0\nnow 1000\ncall 3\n\
            read 8 READDIRPLUS 80\ntaken 8 held\ndone 8 0 336\nagain 8 336\nwritten 8 0\n\
            answer 3 0 a:1:dir bb:2:file\nwritten 8 2\nsettled 8 0\nkernel 2:1:2 3:2:2\nserver 2:1:3 3:2:3\n\
            settled 8 2\nkernel 2:1:2 3:2:2\nserver 2:1:2 3:2:2\n",
    },
];

static SIXTH: [Row; 1] = [Row {
    name: "listplus-of-thirty-names-in-two-replies",
    script: "mount 1000 0\nread p 0\ntake 0\ndo 2\nwrite 0\nsettle 0\ncall mkdir /d00\nread p 0\ntake 0\ndo 4\n\
            write 0\nsettle 0\ncall mkdir /d01\nread p 0\ntake 0\ndo 6\nwrite 0\nsettle 0\ncall mkdir /d02\nread p 0\n\
            take 0\ndo 8\nwrite 0\nsettle 0\ncall mkdir /d03\nread p 0\ntake 0\ndo 10\nwrite 0\nsettle 0\n\
            call mkdir /d04\nread p 0\ntake 0\ndo 12\nwrite 0\nsettle 0\ncall mkdir /d05\nread p 0\ntake 0\ndo 14\n\
            write 0\nsettle 0\ncall mkdir /d06\nread p 0\ntake 0\ndo 16\nwrite 0\nsettle 0\ncall mkdir /d07\n\
            read p 0\ntake 0\ndo 18\nwrite 0\nsettle 0\ncall mkdir /d08\nread p 0\ntake 0\ndo 20\nwrite 0\nsettle 0\n\
            call mkdir /d09\nread p 0\ntake 0\ndo 22\nwrite 0\nsettle 0\ncall mkdir /d10\nread p 0\ntake 0\ndo 24\n\
            write 0\nsettle 0\ncall mkdir /d11\nread p 0\ntake 0\ndo 26\nwrite 0\nsettle 0\ncall mkdir /d12\n\
            read p 0\ntake 0\ndo 28\nwrite 0\nsettle 0\ncall mkdir /d13\nread p 0\ntake 0\ndo 30\nwrite 0\nsettle 0\n\
            call mkdir /d14\nread p 0\ntake 0\ndo 32\nwrite 0\nsettle 0\ncall mkdir /d15\nread p 0\ntake 0\ndo 34\n\
            write 0\nsettle 0\ncall mkdir /d16\nread p 0\ntake 0\ndo 36\nwrite 0\nsettle 0\ncall mkdir /d17\n\
            read p 0\ntake 0\ndo 38\nwrite 0\nsettle 0\ncall mkdir /d18\nread p 0\ntake 0\ndo 40\nwrite 0\nsettle 0\n\
            call mkdir /d19\nread p 0\ntake 0\ndo 42\nwrite 0\nsettle 0\ncall mkdir /d20\nread p 0\ntake 0\ndo 44\n\
            write 0\nsettle 0\ncall mkdir /d21\nread p 0\ntake 0\ndo 46\nwrite 0\nsettle 0\ncall mkdir /d22\n\
            read p 0\ntake 0\ndo 48\nwrite 0\nsettle 0\ncall mkdir /d23\nread p 0\ntake 0\ndo 50\nwrite 0\nsettle 0\n\
            call mkdir /d24\nread p 0\ntake 0\ndo 52\nwrite 0\nsettle 0\ncall mkdir /d25\nread p 0\ntake 0\ndo 54\n\
            write 0\nsettle 0\ncall mkdir /d26\nread p 0\ntake 0\ndo 56\nwrite 0\nsettle 0\ncall mkdir /d27\n\
            read p 0\ntake 0\ndo 58\nwrite 0\nsettle 0\ncall mkdir /d28\nread p 0\ntake 0\ndo 60\nwrite 0\nsettle 0\n\
            call mkdir /d29\nread p 0\ntake 0\ndo 62\nwrite 0\nsettle 0\ncall listplus / 0\nread p 0\ntake 0\ndo 64\n\
            write 0\nsettle 0\ncall listplus / 25\nread p 0\ntake 0\ndo 66\nwrite 0\nsettle 0\ncall listplus / 30\n\
            read p 0\ntake 0\ndo 68\nwrite 0\nsettle 0\n",
    output: "mounted\nread 2 INIT 56\ntaken 2 held\ndone 2 0 80\nwritten 2 0\nsettled 2 0\ncall 1\nread 4 MKDIR 52\n\
            taken 4 held\ndone 4 0 144\nwritten 4 0\nanswer 1 0\nsettled 4 0\ncall 2\nread 6 MKDIR 52\ntaken 6 held\n\
            done 6 0 144\nwritten 6 0\nanswer 2 0\nsettled 6 0\ncall 3\nread 8 MKDIR 52\ntaken 8 held\ndone 8 0 144\n\
            written 8 0\nanswer 3 0\nsettled 8 0\ncall 4\nread 10 MKDIR 52\ntaken 10 held\ndone 10 0 144\n\
            written 10 0\nanswer 4 0\nsettled 10 0\ncall 5\nread 12 MKDIR 52\ntaken 12 held\ndone 12 0 144\n\
            written 12 0\nanswer 5 0\nsettled 12 0\ncall 6\nread 14 MKDIR 52\ntaken 14 held\ndone 14 0 144\n\
            written 14 0\nanswer 6 0\nsettled 14 0\ncall 7\nread 16 MKDIR 52\ntaken 16 held\ndone 16 0 144\n\
            written 16 0\nanswer 7 0\nsettled 16 0\ncall 8\nread 18 MKDIR 52\ntaken 18 held\ndone 18 0 144\n\
            written 18 0\nanswer 8 0\nsettled 18 0\ncall 9\nread 20 MKDIR 52\ntaken 20 held\ndone 20 0 144\n\
            written 20 0\nanswer 9 0\nsettled 20 0\ncall 10\nread 22 MKDIR 52\ntaken 22 held\ndone 22 0 144\n\
            written 22 0\nanswer 10 0\nsettled 22 0\ncall 11\nread 24 MKDIR 52\ntaken 24 held\ndone 24 0 144\n\
            written 24 0\nanswer 11 0\nsettled 24 0\ncall 12\nread 26 MKDIR 52\ntaken 26 held\ndone 26 0 144\n\
            written 26 0\nanswer 12 0\nsettled 26 0\ncall 13\nread 28 MKDIR 52\ntaken 28 held\ndone 28 0 144\n\
            written 28 0\nanswer 13 0\nsettled 28 0\ncall 14\nread 30 MKDIR 52\ntaken 30 held\ndone 30 0 144\n\
            written 30 0\nanswer 14 0\nsettled 30 0\ncall 15\nread 32 MKDIR 52\ntaken 32 held\ndone 32 0 144\n\
            written 32 0\nanswer 15 0\nsettled 32 0\ncall 16\nread 34 MKDIR 52\ntaken 34 held\ndone 34 0 144\n\
            written 34 0\nanswer 16 0\nsettled 34 0\ncall 17\nread 36 MKDIR 52\ntaken 36 held\ndone 36 0 144\n\
            written 36 0\nanswer 17 0\nsettled 36 0\ncall 18\nread 38 MKDIR 52\ntaken 38 held\ndone 38 0 144\n\
            written 38 0\nanswer 18 0\nsettled 38 0\ncall 19\nread 40 MKDIR 52\ntaken 40 held\ndone 40 0 144\n\
            written 40 0\nanswer 19 0\nsettled 40 0\ncall 20\nread 42 MKDIR 52\ntaken 42 held\ndone 42 0 144\n\
            written 42 0\nanswer 20 0\nsettled 42 0\ncall 21\nread 44 MKDIR 52\ntaken 44 held\ndone 44 0 144\n\
            written 44 0\nanswer 21 0\nsettled 44 0\ncall 22\nread 46 MKDIR 52\ntaken 46 held\ndone 46 0 144\n\
            written 46 0\nanswer 22 0\nsettled 46 0\ncall 23\nread 48 MKDIR 52\ntaken 48 held\ndone 48 0 144\n\
            written 48 0\nanswer 23 0\nsettled 48 0\ncall 24\nread 50 MKDIR 52\ntaken 50 held\ndone 50 0 144\n\
            written 50 0\nanswer 24 0\nsettled 50 0\ncall 25\nread 52 MKDIR 52\ntaken 52 held\ndone 52 0 144\n\
            written 52 0\nanswer 25 0\nsettled 52 0\ncall 26\nread 54 MKDIR 52\ntaken 54 held\ndone 54 0 144\n\
            written 54 0\nanswer 26 0\nsettled 54 0\ncall 27\nread 56 MKDIR 52\ntaken 56 held\ndone 56 0 144\n\
            written 56 0\nanswer 27 0\nsettled 56 0\ncall 28\nread 58 MKDIR 52\ntaken 58 held\ndone 58 0 144\n\
            written 58 0\nanswer 28 0\nsettled 58 0\ncall 29\nread 60 MKDIR 52\ntaken 60 held\ndone 60 0 144\n\
            written 60 0\nanswer 29 0\nsettled 60 0\ncall 30\nread 62 MKDIR 52\ntaken 62 held\ndone 62 0 144\n\
            written 62 0\nanswer 30 0\nsettled 62 0\ncall 31\nread 64 READDIRPLUS 80\ntaken 64 held\ndone 64 0 4016\n\
            written 64 0\n\
            answer 31 0 d00:1:dir d01:2:dir d02:3:dir d03:4:dir d04:5:dir d05:6:dir d06:7:dir d07:8:dir d08:9:dir d09:10:dir d10:11:dir d11:12:dir d12:13:dir d13:14:dir d14:15:dir d15:16:dir d16:17:dir d17:18:dir d18:19:dir d19:20:dir d20:21:dir d21:22:dir d22:23:dir d23:24:dir d24:25:dir\n\
            settled 64 0\ncall 32\nread 66 READDIRPLUS 80\ntaken 66 held\ndone 66 0 816\nwritten 66 0\n\
            answer 32 0 d25:26:dir d26:27:dir d27:28:dir d28:29:dir d29:30:dir\nsettled 66 0\ncall 33\n\
            read 68 READDIRPLUS 80\ntaken 68 held\ndone 68 0 16\nwritten 68 0\nanswer 33 0\nsettled 68 0\n",
}];

static LONG: [Row; 2] = [
    Row {
        name: "sixty-four-calls-then-full",
        script: "mount 1000 0\nread p 0\ntake 0\ndo 2\nwrite 0\nsettle 0\ncall stat /\ncall stat /\ncall stat /\n\
            call stat /\ncall stat /\ncall stat /\ncall stat /\ncall stat /\ncall stat /\ncall stat /\ncall stat /\n\
            call stat /\ncall stat /\ncall stat /\ncall stat /\ncall stat /\ncall stat /\ncall stat /\ncall stat /\n\
            call stat /\ncall stat /\ncall stat /\ncall stat /\ncall stat /\ncall stat /\ncall stat /\ncall stat /\n\
            call stat /\ncall stat /\ncall stat /\ncall stat /\ncall stat /\ncall stat /\ncall stat /\ncall stat /\n\
            call stat /\ncall stat /\ncall stat /\ncall stat /\ncall stat /\ncall stat /\ncall stat /\ncall stat /\n\
            call stat /\ncall stat /\ncall stat /\ncall stat /\ncall stat /\ncall stat /\ncall stat /\ncall stat /\n\
            call stat /\ncall stat /\ncall stat /\ncall stat /\ncall stat /\ncall stat /\ncall stat /\ncall stat /\n\
            call stat /\ncall stat /\ncall stat /\ncall stat /\ncall stat /\ncall stat /\nread p 0\ntake 0\nread p 0\n\
            take 0\nread p 0\ntake 0\nread p 0\ntake 0\nread p 0\ntake 0\nread p 0\ntake 0\nread p 0\ntake 0\n\
            read p 0\ntake 0\nread p 0\ntake 0\nread p 0\ntake 0\nread p 0\ntake 0\nread p 0\ntake 0\nread p 0\n\
            take 0\nread p 0\ntake 0\nread p 0\ntake 0\nread p 0\ntake 0\nread p 0\ntake 0\nread p 0\ntake 0\n\
            read p 0\ntake 0\nread p 0\ntake 0\nread p 0\ntake 0\nread p 0\ntake 0\nread p 0\ntake 0\nread p 0\n\
            take 0\nread p 0\ntake 0\nread p 0\ntake 0\nread p 0\ntake 0\nread p 0\ntake 0\nread p 0\ntake 0\n\
            read p 0\ntake 0\nread p 0\ntake 0\nread p 0\ntake 0\nread p 0\ntake 0\nread p 0\ntake 0\nread p 0\n\
            take 0\nread p 0\ntake 0\nread p 0\ntake 0\nread p 0\ntake 0\nread p 0\ntake 0\nread p 0\ntake 0\n\
            read p 0\ntake 0\nread p 0\ntake 0\nread p 0\ntake 0\nread p 0\ntake 0\nread p 0\ntake 0\nread p 0\n\
            take 0\nread p 0\ntake 0\nread p 0\ntake 0\nread p 0\ntake 0\nread p 0\ntake 0\nread p 0\ntake 0\n\
            read p 0\ntake 0\nread p 0\ntake 0\nread p 0\ntake 0\nread p 0\ntake 0\nread p 0\ntake 0\nread p 0\n\
            take 0\nread p 0\ntake 0\nread p 0\ntake 0\nread p 0\ntake 0\nread p 0\ntake 0\nread p 0\ntake 0\n\
            read p 0\ntake 0\nread p 0\ntake 0\ndo 130\nwrite 0\nsettle 0\ndo 128\nwrite 0\nsettle 0\ndo 126\n\
            write 0\nsettle 0\ndo 124\nwrite 0\nsettle 0\ndo 122\nwrite 0\nsettle 0\ndo 120\nwrite 0\nsettle 0\n\
            do 118\nwrite 0\nsettle 0\ndo 116\nwrite 0\nsettle 0\ndo 114\nwrite 0\nsettle 0\ndo 112\nwrite 0\n\
            settle 0\ndo 110\nwrite 0\nsettle 0\ndo 108\nwrite 0\nsettle 0\ndo 106\nwrite 0\nsettle 0\ndo 104\n\
            write 0\nsettle 0\ndo 102\nwrite 0\nsettle 0\ndo 100\nwrite 0\nsettle 0\ndo 98\nwrite 0\nsettle 0\ndo 96\n\
            write 0\nsettle 0\ndo 94\nwrite 0\nsettle 0\ndo 92\nwrite 0\nsettle 0\ndo 90\nwrite 0\nsettle 0\ndo 88\n\
            write 0\nsettle 0\ndo 86\nwrite 0\nsettle 0\ndo 84\nwrite 0\nsettle 0\ndo 82\nwrite 0\nsettle 0\ndo 80\n\
            write 0\nsettle 0\ndo 78\nwrite 0\nsettle 0\ndo 76\nwrite 0\nsettle 0\ndo 74\nwrite 0\nsettle 0\ndo 72\n\
            write 0\nsettle 0\ndo 70\nwrite 0\nsettle 0\ndo 68\nwrite 0\nsettle 0\ndo 66\nwrite 0\nsettle 0\ndo 64\n\
            write 0\nsettle 0\ndo 62\nwrite 0\nsettle 0\ndo 60\nwrite 0\nsettle 0\ndo 58\nwrite 0\nsettle 0\ndo 56\n\
            write 0\nsettle 0\ndo 54\nwrite 0\nsettle 0\ndo 52\nwrite 0\nsettle 0\ndo 50\nwrite 0\nsettle 0\ndo 48\n\
            write 0\nsettle 0\ndo 46\nwrite 0\nsettle 0\ndo 44\nwrite 0\nsettle 0\ndo 42\nwrite 0\nsettle 0\ndo 40\n\
            write 0\nsettle 0\ndo 38\nwrite 0\nsettle 0\ndo 36\nwrite 0\nsettle 0\ndo 34\nwrite 0\nsettle 0\ndo 32\n\
            write 0\nsettle 0\ndo 30\nwrite 0\nsettle 0\ndo 28\nwrite 0\nsettle 0\ndo 26\nwrite 0\nsettle 0\ndo 24\n\
            write 0\nsettle 0\ndo 22\nwrite 0\nsettle 0\ndo 20\nwrite 0\nsettle 0\ndo 18\nwrite 0\nsettle 0\ndo 16\n\
            write 0\nsettle 0\ndo 14\nwrite 0\nsettle 0\ndo 12\nwrite 0\nsettle 0\ndo 10\nwrite 0\nsettle 0\ndo 8\n\
            write 0\nsettle 0\ndo 6\nwrite 0\nsettle 0\ndo 4\nwrite 0\nsettle 0\n",
        output: "mounted\nread 2 INIT 56\ntaken 2 held\ndone 2 0 80\nwritten 2 0\nsettled 2 0\ncall 1\ncall 2\n\
            call 3\ncall 4\ncall 5\ncall 6\ncall 7\ncall 8\ncall 9\ncall 10\ncall 11\ncall 12\ncall 13\ncall 14\n\
            call 15\ncall 16\ncall 17\ncall 18\ncall 19\ncall 20\ncall 21\ncall 22\ncall 23\ncall 24\ncall 25\n\
            call 26\ncall 27\ncall 28\ncall 29\ncall 30\ncall 31\ncall 32\ncall 33\ncall 34\ncall 35\ncall 36\n\
            call 37\ncall 38\ncall 39\ncall 40\ncall 41\ncall 42\ncall 43\ncall 44\ncall 45\ncall 46\ncall 47\n\
            call 48\ncall 49\ncall 50\ncall 51\ncall 52\ncall 53\ncall 54\ncall 55\ncall 56\ncall 57\ncall 58\n\
            call 59\ncall 60\ncall 61\ncall 62\ncall 63\ncall 64\nrefused 7 Full\nread 4 GETATTR 56\ntaken 4 held\n\
            read 6 GETATTR 56\ntaken 6 held\nread 8 GETATTR 56\ntaken 8 held\nread 10 GETATTR 56\ntaken 10 held\n\
            read 12 GETATTR 56\ntaken 12 held\nread 14 GETATTR 56\ntaken 14 held\nread 16 GETATTR 56\ntaken 16 held\n\
            read 18 GETATTR 56\ntaken 18 held\nread 20 GETATTR 56\ntaken 20 held\nread 22 GETATTR 56\ntaken 22 held\n\
            read 24 GETATTR 56\ntaken 24 held\nread 26 GETATTR 56\ntaken 26 held\nread 28 GETATTR 56\ntaken 28 held\n\
            read 30 GETATTR 56\ntaken 30 held\nread 32 GETATTR 56\ntaken 32 held\nread 34 GETATTR 56\ntaken 34 held\n\
            read 36 GETATTR 56\ntaken 36 held\nread 38 GETATTR 56\ntaken 38 held\nread 40 GETATTR 56\ntaken 40 held\n\
            read 42 GETATTR 56\ntaken 42 held\nread 44 GETATTR 56\ntaken 44 held\nread 46 GETATTR 56\ntaken 46 held\n\
            read 48 GETATTR 56\ntaken 48 held\nread 50 GETATTR 56\ntaken 50 held\nread 52 GETATTR 56\ntaken 52 held\n\
            read 54 GETATTR 56\ntaken 54 held\nread 56 GETATTR 56\ntaken 56 held\nread 58 GETATTR 56\ntaken 58 held\n\
            read 60 GETATTR 56\ntaken 60 held\nread 62 GETATTR 56\ntaken 62 held\nread 64 GETATTR 56\ntaken 64 held\n\
            read 66 GETATTR 56\ntaken 66 held\nread 68 GETATTR 56\ntaken 68 held\nread 70 GETATTR 56\ntaken 70 held\n\
            read 72 GETATTR 56\ntaken 72 held\nread 74 GETATTR 56\ntaken 74 held\nread 76 GETATTR 56\ntaken 76 held\n\
            read 78 GETATTR 56\ntaken 78 held\nread 80 GETATTR 56\ntaken 80 held\nread 82 GETATTR 56\ntaken 82 held\n\
            read 84 GETATTR 56\ntaken 84 held\nread 86 GETATTR 56\ntaken 86 held\nread 88 GETATTR 56\ntaken 88 held\n\
            read 90 GETATTR 56\ntaken 90 held\nread 92 GETATTR 56\ntaken 92 held\nread 94 GETATTR 56\ntaken 94 held\n\
            read 96 GETATTR 56\ntaken 96 held\nread 98 GETATTR 56\ntaken 98 held\nread 100 GETATTR 56\n\
            taken 100 held\nread 102 GETATTR 56\ntaken 102 held\nread 104 GETATTR 56\ntaken 104 held\n\
            read 106 GETATTR 56\ntaken 106 held\nread 108 GETATTR 56\ntaken 108 held\nread 110 GETATTR 56\n\
            taken 110 held\nread 112 GETATTR 56\ntaken 112 held\nread 114 GETATTR 56\ntaken 114 held\n\
            read 116 GETATTR 56\ntaken 116 held\nread 118 GETATTR 56\ntaken 118 held\nread 120 GETATTR 56\n\
            taken 120 held\nread 122 GETATTR 56\ntaken 122 held\nread 124 GETATTR 56\ntaken 124 held\n\
            read 126 GETATTR 56\ntaken 126 held\nread 128 GETATTR 56\ntaken 128 held\nread 130 GETATTR 56\n\
            taken 130 held\ndone 130 0 120\nwritten 130 0\nanswer 64 0 dir 1 0 1\nsettled 130 0\ndone 128 0 120\n\
            written 128 0\nanswer 63 0 dir 1 0 1\nsettled 128 0\ndone 126 0 120\nwritten 126 0\n\
            answer 62 0 dir 1 0 1\nsettled 126 0\ndone 124 0 120\nwritten 124 0\nanswer 61 0 dir 1 0 1\n\
            settled 124 0\ndone 122 0 120\nwritten 122 0\nanswer 60 0 dir 1 0 1\nsettled 122 0\ndone 120 0 120\n\
            written 120 0\nanswer 59 0 dir 1 0 1\nsettled 120 0\ndone 118 0 120\nwritten 118 0\n\
            answer 58 0 dir 1 0 1\nsettled 118 0\ndone 116 0 120\nwritten 116 0\nanswer 57 0 dir 1 0 1\n\
            settled 116 0\ndone 114 0 120\nwritten 114 0\nanswer 56 0 dir 1 0 1\nsettled 114 0\ndone 112 0 120\n\
            written 112 0\nanswer 55 0 dir 1 0 1\nsettled 112 0\ndone 110 0 120\nwritten 110 0\n\
            answer 54 0 dir 1 0 1\nsettled 110 0\ndone 108 0 120\nwritten 108 0\nanswer 53 0 dir 1 0 1\n\
            settled 108 0\ndone 106 0 120\nwritten 106 0\nanswer 52 0 dir 1 0 1\nsettled 106 0\ndone 104 0 120\n\
            written 104 0\nanswer 51 0 dir 1 0 1\nsettled 104 0\ndone 102 0 120\nwritten 102 0\n\
            answer 50 0 dir 1 0 1\nsettled 102 0\ndone 100 0 120\nwritten 100 0\nanswer 49 0 dir 1 0 1\n\
            settled 100 0\ndone 98 0 120\nwritten 98 0\nanswer 48 0 dir 1 0 1\nsettled 98 0\ndone 96 0 120\n\
            written 96 0\nanswer 47 0 dir 1 0 1\nsettled 96 0\ndone 94 0 120\nwritten 94 0\nanswer 46 0 dir 1 0 1\n\
            settled 94 0\ndone 92 0 120\nwritten 92 0\nanswer 45 0 dir 1 0 1\nsettled 92 0\ndone 90 0 120\n\
            written 90 0\nanswer 44 0 dir 1 0 1\nsettled 90 0\ndone 88 0 120\nwritten 88 0\nanswer 43 0 dir 1 0 1\n\
            settled 88 0\ndone 86 0 120\nwritten 86 0\nanswer 42 0 dir 1 0 1\nsettled 86 0\ndone 84 0 120\n\
            written 84 0\nanswer 41 0 dir 1 0 1\nsettled 84 0\ndone 82 0 120\nwritten 82 0\nanswer 40 0 dir 1 0 1\n\
            settled 82 0\ndone 80 0 120\nwritten 80 0\nanswer 39 0 dir 1 0 1\nsettled 80 0\ndone 78 0 120\n\
            written 78 0\nanswer 38 0 dir 1 0 1\nsettled 78 0\ndone 76 0 120\nwritten 76 0\nanswer 37 0 dir 1 0 1\n\
            settled 76 0\ndone 74 0 120\nwritten 74 0\nanswer 36 0 dir 1 0 1\nsettled 74 0\ndone 72 0 120\n\
            written 72 0\nanswer 35 0 dir 1 0 1\nsettled 72 0\ndone 70 0 120\nwritten 70 0\nanswer 34 0 dir 1 0 1\n\
            settled 70 0\ndone 68 0 120\nwritten 68 0\nanswer 33 0 dir 1 0 1\nsettled 68 0\ndone 66 0 120\n\
            written 66 0\nanswer 32 0 dir 1 0 1\nsettled 66 0\ndone 64 0 120\nwritten 64 0\nanswer 31 0 dir 1 0 1\n\
            settled 64 0\ndone 62 0 120\nwritten 62 0\nanswer 30 0 dir 1 0 1\nsettled 62 0\ndone 60 0 120\n\
            written 60 0\nanswer 29 0 dir 1 0 1\nsettled 60 0\ndone 58 0 120\nwritten 58 0\nanswer 28 0 dir 1 0 1\n\
            settled 58 0\ndone 56 0 120\nwritten 56 0\nanswer 27 0 dir 1 0 1\nsettled 56 0\ndone 54 0 120\n\
            written 54 0\nanswer 26 0 dir 1 0 1\nsettled 54 0\ndone 52 0 120\nwritten 52 0\nanswer 25 0 dir 1 0 1\n\
            settled 52 0\ndone 50 0 120\nwritten 50 0\nanswer 24 0 dir 1 0 1\nsettled 50 0\ndone 48 0 120\n\
            written 48 0\nanswer 23 0 dir 1 0 1\nsettled 48 0\ndone 46 0 120\nwritten 46 0\nanswer 22 0 dir 1 0 1\n\
            settled 46 0\ndone 44 0 120\nwritten 44 0\nanswer 21 0 dir 1 0 1\nsettled 44 0\ndone 42 0 120\n\
            written 42 0\nanswer 20 0 dir 1 0 1\nsettled 42 0\ndone 40 0 120\nwritten 40 0\nanswer 19 0 dir 1 0 1\n\
            settled 40 0\ndone 38 0 120\nwritten 38 0\nanswer 18 0 dir 1 0 1\nsettled 38 0\ndone 36 0 120\n\
            written 36 0\nanswer 17 0 dir 1 0 1\nsettled 36 0\ndone 34 0 120\nwritten 34 0\nanswer 16 0 dir 1 0 1\n\
            settled 34 0\ndone 32 0 120\nwritten 32 0\nanswer 15 0 dir 1 0 1\nsettled 32 0\ndone 30 0 120\n\
            written 30 0\nanswer 14 0 dir 1 0 1\nsettled 30 0\ndone 28 0 120\nwritten 28 0\nanswer 13 0 dir 1 0 1\n\
            settled 28 0\ndone 26 0 120\nwritten 26 0\nanswer 12 0 dir 1 0 1\nsettled 26 0\ndone 24 0 120\n\
            written 24 0\nanswer 11 0 dir 1 0 1\nsettled 24 0\ndone 22 0 120\nwritten 22 0\nanswer 10 0 dir 1 0 1\n\
            settled 22 0\ndone 20 0 120\nwritten 20 0\nanswer 9 0 dir 1 0 1\nsettled 20 0\ndone 18 0 120\n\
            written 18 0\nanswer 8 0 dir 1 0 1\nsettled 18 0\ndone 16 0 120\nwritten 16 0\nanswer 7 0 dir 1 0 1\n\
            settled 16 0\ndone 14 0 120\nwritten 14 0\nanswer 6 0 dir 1 0 1\nsettled 14 0\ndone 12 0 120\n\
            written 12 0\nanswer 5 0 dir 1 0 1\nsettled 12 0\ndone 10 0 120\nwritten 10 0\nanswer 4 0 dir 1 0 1\n\
            settled 10 0\ndone 8 0 120\nwritten 8 0\nanswer 3 0 dir 1 0 1\nsettled 8 0\ndone 6 0 120\nwritten 6 0\n\
            answer 2 0 dir 1 0 1\nsettled 6 0\ndone 4 0 120\nwritten 4 0\nanswer 1 0 dir 1 0 1\nsettled 4 0\n",
    },
    Row {
        name: "storm-of-sixty-four-copies",
        script: "mount 1000 0\nread p 0\ntake 0\ndo 2\nwrite 0\nsettle 0\ncall mkdir /a\nread p 0\ntake 0\ndo 4\n\
            write 0\nsettle 0\ntick 1000\ncall stat /a\nread p 0\ntake 0\ndo 6\nagain 6\nagain 6\nagain 6\nagain 6\n\
            again 6\nagain 6\nagain 6\nagain 6\nagain 6\nagain 6\nagain 6\nagain 6\nagain 6\nagain 6\nagain 6\n\
            again 6\nagain 6\nagain 6\nagain 6\nagain 6\nagain 6\nagain 6\nagain 6\nagain 6\nagain 6\nagain 6\n\
            again 6\nagain 6\nagain 6\nagain 6\nagain 6\nagain 6\nagain 6\nagain 6\nagain 6\nagain 6\nagain 6\n\
            again 6\nagain 6\nagain 6\nagain 6\nagain 6\nagain 6\nagain 6\nagain 6\nagain 6\nagain 6\nagain 6\n\
            again 6\nagain 6\nagain 6\nagain 6\nagain 6\nagain 6\nagain 6\nagain 6\nagain 6\nagain 6\nagain 6\n\
            again 6\nagain 6\nagain 6\nagain 6\nshow\nwrite 0\nwrite 0\nwrite 0\nwrite 0\nwrite 0\nwrite 0\nwrite 0\n\
            write 0\nwrite 0\nwrite 0\nwrite 0\nwrite 0\nwrite 0\nwrite 0\nwrite 0\nwrite 0\nwrite 0\nwrite 0\n\
            write 0\nwrite 0\nwrite 0\nwrite 0\nwrite 0\nwrite 0\nwrite 0\nwrite 0\nwrite 0\nwrite 0\nwrite 0\n\
            write 0\nwrite 0\nwrite 0\nwrite 0\nwrite 0\nwrite 0\nwrite 0\nwrite 0\nwrite 0\nwrite 0\nwrite 0\n\
            write 0\nwrite 0\nwrite 0\nwrite 0\nwrite 0\nwrite 0\nwrite 0\nwrite 0\nwrite 0\nwrite 0\nwrite 0\n\
            write 0\nwrite 0\nwrite 0\nwrite 0\nwrite 0\nwrite 0\nwrite 0\nwrite 0\nwrite 0\nwrite 0\nwrite 0\n\
            write 0\nwrite 0\nshow\nsettle 0\nsettle 0\nsettle 0\nsettle 0\nsettle 0\nsettle 0\nsettle 0\nsettle 0\n\
            settle 0\nsettle 0\nsettle 0\nsettle 0\nsettle 0\nsettle 0\nsettle 0\nsettle 0\nsettle 0\nsettle 0\n\
            settle 0\nsettle 0\nsettle 0\nsettle 0\nsettle 0\nsettle 0\nsettle 0\nsettle 0\nsettle 0\nsettle 0\n\
            settle 0\nsettle 0\nsettle 0\nsettle 0\nsettle 0\nsettle 0\nsettle 0\nsettle 0\nsettle 0\nsettle 0\n\
            settle 0\nsettle 0\nsettle 0\nsettle 0\nsettle 0\nsettle 0\nsettle 0\nsettle 0\nsettle 0\nsettle 0\n\
            settle 0\nsettle 0\nsettle 0\nsettle 0\nsettle 0\nsettle 0\nsettle 0\nsettle 0\nsettle 0\nsettle 0\n\
            settle 0\nsettle 0\nsettle 0\nsettle 0\nsettle 0\nsettle 0\nshow\n",
        output: "mounted\nread 2 INIT 56\ntaken 2 held\ndone 2 0 80\nwritten 2 0\nsettled 2 0\ncall 1\n\
            read 4 MKDIR 50\ntaken 4 held\ndone 4 0 144\nwritten 4 0\nanswer 1 0\nsettled 4 0\nnow 1000\ncall 2\n\
            read 6 LOOKUP 42\ntaken 6 held\ndone 6 0 144\nagain 6 144\nagain 6 144\nagain 6 144\nagain 6 144\n\
            again 6 144\nagain 6 144\nagain 6 144\nagain 6 144\nagain 6 144\nagain 6 144\nagain 6 144\nagain 6 144\n\
            again 6 144\nagain 6 144\nagain 6 144\nagain 6 144\nagain 6 144\nagain 6 144\nagain 6 144\nagain 6 144\n\
            again 6 144\nagain 6 144\nagain 6 144\nagain 6 144\nagain 6 144\nagain 6 144\nagain 6 144\nagain 6 144\n\
            again 6 144\nagain 6 144\nagain 6 144\nagain 6 144\nagain 6 144\nagain 6 144\nagain 6 144\nagain 6 144\n\
            again 6 144\nagain 6 144\nagain 6 144\nagain 6 144\nagain 6 144\nagain 6 144\nagain 6 144\nagain 6 144\n\
            again 6 144\nagain 6 144\nagain 6 144\nagain 6 144\nagain 6 144\nagain 6 144\nagain 6 144\nagain 6 144\n\
            again 6 144\nagain 6 144\nagain 6 144\nagain 6 144\nagain 6 144\nagain 6 144\nagain 6 144\nagain 6 144\n\
            again 6 144\nagain 6 144\nagain 6 144\nkernel 2:1:1\nserver 2:1:65\nwritten 6 0\nwritten 6 2\n\
            written 6 2\nwritten 6 2\nwritten 6 2\nwritten 6 2\nwritten 6 2\nwritten 6 2\nwritten 6 2\nwritten 6 2\n\
            written 6 2\nwritten 6 2\nwritten 6 2\nwritten 6 2\nwritten 6 2\nwritten 6 2\nwritten 6 2\nwritten 6 2\n\
            written 6 2\nwritten 6 2\nwritten 6 2\nwritten 6 2\nwritten 6 2\nwritten 6 2\nwritten 6 2\nwritten 6 2\n\
            written 6 2\nwritten 6 2\nwritten 6 2\nwritten 6 2\nwritten 6 2\nwritten 6 2\nwritten 6 2\nwritten 6 2\n\
            written 6 2\nwritten 6 2\nwritten 6 2\nwritten 6 2\nwritten 6 2\nwritten 6 2\nwritten 6 2\nwritten 6 2\n\
            written 6 2\nwritten 6 2\nwritten 6 2\nwritten 6 2\nwritten 6 2\nwritten 6 2\nwritten 6 2\nwritten 6 2\n\
            written 6 2\nwritten 6 2\nwritten 6 2\nwritten 6 2\nwritten 6 2\nwritten 6 2\nwritten 6 2\nwritten 6 2\n\
            written 6 2\nwritten 6 2\nwritten 6 2\nwritten 6 2\nwritten 6 2\nwritten 6 2\nkernel 2:1:2\n\
            server 2:1:65\nsettled 6 0\nsettled 6 2\nsettled 6 2\nsettled 6 2\nsettled 6 2\nsettled 6 2\nsettled 6 2\n\
            settled 6 2\nsettled 6 2\nsettled 6 2\nsettled 6 2\nsettled 6 2\nsettled 6 2\nsettled 6 2\nsettled 6 2\n\
            settled 6 2\nsettled 6 2\nsettled 6 2\nsettled 6 2\nsettled 6 2\nsettled 6 2\nsettled 6 2\nsettled 6 2\n\
            settled 6 2\nsettled 6 2\nsettled 6 2\nsettled 6 2\nsettled 6 2\nsettled 6 2\nsettled 6 2\nsettled 6 2\n\
            settled 6 2\nsettled 6 2\nsettled 6 2\nsettled 6 2\nsettled 6 2\nsettled 6 2\nsettled 6 2\nsettled 6 2\n\
            settled 6 2\nsettled 6 2\nsettled 6 2\nsettled 6 2\nsettled 6 2\nsettled 6 2\nsettled 6 2\nsettled 6 2\n\
            settled 6 2\nsettled 6 2\nsettled 6 2\nsettled 6 2\nsettled 6 2\nsettled 6 2\nsettled 6 2\nsettled 6 2\n\
            settled 6 2\nsettled 6 2\nsettled 6 2\nsettled 6 2\nsettled 6 2\nsettled 6 2\nsettled 6 2\nsettled 6 2\n\
            settled 6 2\nkernel 2:1:2\nserver 2:1:2\n",
    },
];

static SEVENTH: [Row; 2] = [
    Row {
        name: "minor15-forgets-one-by-one",
        script: "mount 1000 0 15\nread p 0\ntake 0\ndo 2\nwrite 0\nsettle 0\ncall mkdir /a\nread p 0\ntake 0\ndo 4\n\
            write 0\nsettle 0\ncall mkdir /b\nread p 0\ntake 0\ndo 6\nwrite 0\nsettle 0\ndrop 1 a\ndrop 1 b\nevict 2\n\
            evict 3\nread f 2\nread f 1\nread f 1\ntake 0\ntake 0\nshow\n",
        output: "mounted\nread 2 INIT 56\ntaken 2 held\ndone 2 0 40\nwritten 2 0\nsettled 2 0\ncall 1\n\
            read 4 MKDIR 50\ntaken 4 held\ndone 4 0 144\nwritten 4 0\nanswer 1 0\nsettled 4 0\ncall 2\n\
            read 6 MKDIR 50\ntaken 6 held\ndone 6 0 144\nwritten 6 0\nanswer 2 0\nsettled 6 0\ndropped\ndropped\n\
            evicted 2 1\nevicted 3 1\nrefused 2 NoSuch\nread 8 FORGET 48\nread 10 FORGET 48\ntaken 8 forgot\n\
            taken 10 forgot\nkernel\nserver\n",
    },
    Row {
        name: "minor15-listplus-sends-readdir-then-minor31",
        script: "mount 1000 0 15\nread p 0\ntake 0\ndo 2\nwrite 0\nsettle 0\ncall mkdir /a\nread p 0\ntake 0\ndo 4\n\
            write 0\nsettle 0\ncall listplus / 0\nread p 0\ntake 0\ndo 6\nwrite 0\nsettle 0\nshow\nmount 1000 0\n\
            read p 0\ntake 0\ndo 2\nwrite 0\nsettle 0\ncall listplus / 0\nread p 0\ntake 0\ndo 4\nwrite 0\nsettle 0\n\
            show\n",
        output: "mounted\nread 2 INIT 56\ntaken 2 held\ndone 2 0 40\nwritten 2 0\nsettled 2 0\ncall 1\n\
            read 4 MKDIR 50\ntaken 4 held\ndone 4 0 144\nwritten 4 0\nanswer 1 0\nsettled 4 0\ncall 2\n\
            read 6 READDIR 80\ntaken 6 held\ndone 6 0 48\nwritten 6 0\nanswer 2 0 a:1:dir\nsettled 6 0\nkernel 2:1:1\n\
            server 2:1:1\nmounted\nread 2 INIT 56\ntaken 2 held\ndone 2 0 80\nwritten 2 0\nsettled 2 0\ncall 3\n\
            read 4 READDIRPLUS 80\ntaken 4 held\ndone 4 0 176\nwritten 4 0\nanswer 3 0 a:1:dir\nsettled 4 0\n\
            kernel 2:2:1\nserver 2:2:1\n",
    },
];

/// The rows but the three with more than a hundred lines.
pub(super) fn short_lists() -> [&'static [Row]; 6] {
    let [first, second, third, fourth, fifth, seventh, _, _] = lists();
    [first, second, third, fourth, fifth, seventh]
}

/// The three rows with more than a hundred lines.
pub(super) fn long_lists() -> [&'static [Row]; 2] {
    let [_, _, _, _, _, _, sixth, long] = lists();
    [sixth, long]
}

/// The rows, in several lists: of a long one the check runs out of steps. The long ones come last.
pub(super) fn lists() -> [&'static [Row]; 8] {
    [
        &FIRST, &SECOND, &THIRD, &FOURTH, &FIFTH, &SEVENTH, &SIXTH, &LONG,
    ]
}
