//! Worked runs, computed over the definitions: the machine of kernel, server and links, and the plain world beside it,
//! record what each run has to record.
#![tactic(auto)]

ghost use Rattle.fuse_runs.specs.IdUsedAgainWhileOlderReplyIsKept.{IsComputed as IdUsedAgainWhileOlderReplyIsKeptIsComputed};
ghost use Rattle.fuse_runs.specs.InterruptMarkBelongsToTheRequest.{IsComputed as InterruptMarkBelongsToTheRequestIsComputed};
ghost use Rattle.fuse_runs.specs.LookupInAFileOpenReleaseAndGap.{IsComputed as LookupInAFileOpenReleaseAndGapIsComputed};
ghost use Rattle.fuse_runs.specs.RemountDropsWhatWasHeld.{IsComputed as RemountDropsWhatWasHeldIsComputed};
ghost use Rattle.fuse_runs.specs.StatOfRoot.{IsComputed as StatOfRootIsComputed};
ghost use Rattle.fuse_runs.specs.StatOfMissingName.{IsComputed as StatOfMissingNameIsComputed};
ghost use Rattle.fuse_runs.specs.CallBeforeInitIsAnswered.{IsComputed as CallBeforeInitIsAnsweredIsComputed};
ghost use Rattle.fuse_runs.specs.CallBeforeMount.{IsComputed as CallBeforeMountIsComputed};
ghost use Rattle.fuse_runs.specs.NameLengthsAndPathFaults.{IsComputed as NameLengthsAndPathFaultsIsComputed};
ghost use Rattle.fuse_runs.specs.SixtyFourCallsThenFull.{IsComputed as SixtyFourCallsThenFullIsComputed};
ghost use Rattle.fuse_runs.specs.CountsOfTwoLookupsAndExactForget.{IsComputed as CountsOfTwoLookupsAndExactForgetIsComputed};
ghost use Rattle.fuse_runs.specs.RefusedCopyGivesCountBack.{IsComputed as RefusedCopyGivesCountBackIsComputed};
ghost use Rattle.fuse_runs.specs.CopyInFlightHoldsNodeAndId.{IsComputed as CopyInFlightHoldsNodeAndIdIsComputed};
ghost use Rattle.fuse_runs.specs.NoCopyAfterSettle.{IsComputed as NoCopyAfterSettleIsComputed};
ghost use Rattle.fuse_runs.specs.UnlinkOvertakesLookupReply.{IsComputed as UnlinkOvertakesLookupReplyIsComputed};
ghost use Rattle.fuse_runs.specs.FatalSignalsUnreadAndRead.{IsComputed as FatalSignalsUnreadAndReadIsComputed};
ghost use Rattle.fuse_runs.specs.SoftSignalAndEagain.{IsComputed as SoftSignalAndEagainIsComputed};
ghost use Rattle.fuse_runs.specs.NoSuchCallBindingOrNode.{IsComputed as NoSuchCallBindingOrNodeIsComputed};
ghost use Rattle.fuse_runs.specs.AbortAfterDoAndRemount.{IsComputed as AbortAfterDoAndRemountIsComputed};
ghost use Rattle.fuse_runs.specs.DoAfterAbort.{IsComputed as DoAfterAbortIsComputed};
ghost use Rattle.fuse_runs.specs.ReadOfUnlinkedFileAndLateRelease.{IsComputed as ReadOfUnlinkedFileAndLateReleaseIsComputed};
ghost use Rattle.fuse_runs.specs.WritePastTheLargestFile.{IsComputed as WritePastTheLargestFileIsComputed};
ghost use Rattle.fuse_runs.specs.BatchForget.{IsComputed as BatchForgetIsComputed};
ghost use Rattle.fuse_runs.specs.ListAndListFromAnOffset.{IsComputed as ListAndListFromAnOffsetIsComputed};
ghost use Rattle.fuse_runs.specs.RenameRmdirAndUnlinkRefusals.{IsComputed as RenameRmdirAndUnlinkRefusalsIsComputed};
ghost use Rattle.fuse_runs.specs.LinkCountsTheSameNode.{IsComputed as LinkCountsTheSameNodeIsComputed};
ghost use Rattle.fuse_runs.specs.MountBusyWithAnOpenFile.{IsComputed as MountBusyWithAnOpenFileIsComputed};
ghost use Rattle.fuse_runs.specs.ClockAndValidityLimits.{IsComputed as ClockAndValidityLimitsIsComputed};
ghost use Rattle.fuse_runs.specs.StormOfSixtyFourCopies.{IsComputed as StormOfSixtyFourCopiesIsComputed};
ghost use Rattle.fuse_runs.specs.WalkOfTwoWordsAndExpiry.{IsComputed as WalkOfTwoWordsAndExpiryIsComputed};
ghost use Rattle.fuse_runs.specs.DequeuedReadOfAClosedFile.{IsComputed as DequeuedReadOfAClosedFileIsComputed};
ghost use Rattle.fuse_runs.specs.RenameOverABoundName.{IsComputed as RenameOverABoundNameIsComputed};
ghost use Rattle.fuse_runs.specs.ListplusCountsAndBindsEachName.{IsComputed as ListplusCountsAndBindsEachNameIsComputed};
ghost use Rattle.fuse_runs.specs.ListplusRefusedCopyGivesEveryCountBack.{IsComputed as ListplusRefusedCopyGivesEveryCountBackIsComputed};
ghost use Rattle.fuse_runs.specs.ListplusOneFileUnderTwoNames.{IsComputed as ListplusOneFileUnderTwoNamesIsComputed};
ghost use Rattle.fuse_runs.specs.ListplusOfThirtyNamesInTwoReplies.{IsComputed as ListplusOfThirtyNamesInTwoRepliesIsComputed};
ghost use Rattle.fuse_runs.specs.Minor15ForgetsOneByOne.{IsComputed as Minor15ForgetsOneByOneIsComputed};
ghost use Rattle.fuse_runs.specs.Minor15ListplusSendsReaddirThenMinor31.{IsComputed as Minor15ListplusSendsReaddirThenMinor31IsComputed};

/// Id used again while older reply is kept.
pub fn id_used_again_while_older_reply_is_kept()
    ensures { IdUsedAgainWhileOlderReplyIsKeptIsComputed }
{}

/// Interrupt mark belongs to the request.
pub fn interrupt_mark_belongs_to_the_request()
    ensures { InterruptMarkBelongsToTheRequestIsComputed }
{}

/// Lookup in a file open release and gap.
pub fn lookup_in_a_file_open_release_and_gap()
    ensures { LookupInAFileOpenReleaseAndGapIsComputed }
{}

/// Remount drops what was held.
pub fn remount_drops_what_was_held()
    ensures { RemountDropsWhatWasHeldIsComputed }
{}

/// Stat of root.
pub fn stat_of_root()
    ensures { StatOfRootIsComputed }
{}

/// Stat of missing name.
pub fn stat_of_missing_name()
    ensures { StatOfMissingNameIsComputed }
{}

/// Call before init is answered.
pub fn call_before_init_is_answered()
    ensures { CallBeforeInitIsAnsweredIsComputed }
{}

/// Call before mount.
pub fn call_before_mount()
    ensures { CallBeforeMountIsComputed }
{}

/// Name lengths and path faults.
pub fn name_lengths_and_path_faults()
    ensures { NameLengthsAndPathFaultsIsComputed }
{}

/// Sixty four calls then full.
pub fn sixty_four_calls_then_full()
    ensures { SixtyFourCallsThenFullIsComputed }
{}

/// Counts of two lookups and exact forget.
pub fn counts_of_two_lookups_and_exact_forget()
    ensures { CountsOfTwoLookupsAndExactForgetIsComputed }
{}

/// Refused copy gives count back.
pub fn refused_copy_gives_count_back()
    ensures { RefusedCopyGivesCountBackIsComputed }
{}

/// Copy in flight holds node and id.
pub fn copy_in_flight_holds_node_and_id()
    ensures { CopyInFlightHoldsNodeAndIdIsComputed }
{}

/// No copy after settle.
pub fn no_copy_after_settle()
    ensures { NoCopyAfterSettleIsComputed }
{}

/// Unlink overtakes lookup reply.
pub fn unlink_overtakes_lookup_reply()
    ensures { UnlinkOvertakesLookupReplyIsComputed }
{}

/// Fatal signals unread and read.
pub fn fatal_signals_unread_and_read()
    ensures { FatalSignalsUnreadAndReadIsComputed }
{}

/// Soft signal and eagain.
pub fn soft_signal_and_eagain()
    ensures { SoftSignalAndEagainIsComputed }
{}

/// No such call binding or node.
pub fn no_such_call_binding_or_node()
    ensures { NoSuchCallBindingOrNodeIsComputed }
{}

/// Abort after do and remount.
pub fn abort_after_do_and_remount()
    ensures { AbortAfterDoAndRemountIsComputed }
{}

/// Do after abort.
pub fn do_after_abort()
    ensures { DoAfterAbortIsComputed }
{}

/// Read of unlinked file and late release.
pub fn read_of_unlinked_file_and_late_release()
    ensures { ReadOfUnlinkedFileAndLateReleaseIsComputed }
{}

/// Write past the largest file.
pub fn write_past_the_largest_file()
    ensures { WritePastTheLargestFileIsComputed }
{}

/// Batch forget.
pub fn batch_forget()
    ensures { BatchForgetIsComputed }
{}

/// List and list from an offset.
pub fn list_and_list_from_an_offset()
    ensures { ListAndListFromAnOffsetIsComputed }
{}

/// Rename rmdir and unlink refusals.
pub fn rename_rmdir_and_unlink_refusals()
    ensures { RenameRmdirAndUnlinkRefusalsIsComputed }
{}

/// Link counts the same node.
pub fn link_counts_the_same_node()
    ensures { LinkCountsTheSameNodeIsComputed }
{}

/// Mount busy with an open file.
pub fn mount_busy_with_an_open_file()
    ensures { MountBusyWithAnOpenFileIsComputed }
{}

/// Clock and validity limits.
pub fn clock_and_validity_limits()
    ensures { ClockAndValidityLimitsIsComputed }
{}

/// Storm of sixty four copies.
pub fn storm_of_sixty_four_copies()
    ensures { StormOfSixtyFourCopiesIsComputed }
{}

/// Walk of two words and expiry.
pub fn walk_of_two_words_and_expiry()
    ensures { WalkOfTwoWordsAndExpiryIsComputed }
{}

/// Dequeued read of a closed file.
pub fn dequeued_read_of_a_closed_file()
    ensures { DequeuedReadOfAClosedFileIsComputed }
{}

/// Rename over a bound name.
pub fn rename_over_a_bound_name()
    ensures { RenameOverABoundNameIsComputed }
{}

/// Listplus counts and binds each name.
pub fn listplus_counts_and_binds_each_name()
    ensures { ListplusCountsAndBindsEachNameIsComputed }
{}

/// Listplus refused copy gives every count back.
pub fn listplus_refused_copy_gives_every_count_back()
    ensures { ListplusRefusedCopyGivesEveryCountBackIsComputed }
{}

/// Listplus one file under two names.
pub fn listplus_one_file_under_two_names()
    ensures { ListplusOneFileUnderTwoNamesIsComputed }
{}

/// Listplus of thirty names in two replies.
pub fn listplus_of_thirty_names_in_two_replies()
    ensures { ListplusOfThirtyNamesInTwoRepliesIsComputed }
{}

/// Minor15 forgets one by one.
pub fn minor15_forgets_one_by_one()
    ensures { Minor15ForgetsOneByOneIsComputed }
{}

/// Minor15 listplus sends readdir then minor31.
pub fn minor15_listplus_sends_readdir_then_minor31()
    ensures { Minor15ListplusSendsReaddirThenMinor31IsComputed }
{}
