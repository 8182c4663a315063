//! Law: what is written is read as the same.

ghost use Rattle.sctp_dcep.specs.Content.{ContentReadsBack};
ghost use Rattle.sctp_dcep.specs.Dcep.{OpeningReadsBack, AcknowledgementReadsBack};
ghost use Rattle.sctp_dcep.specs.SameCodes.{AreTheCodes};

// law
/// What is sent for a content is read as it (RFC 8831, 6.6); an OPEN is read as the parameters that it was written for, whatever follows it, and an ACK as
/// one (RFC 8832, 5).
pub fn written_is_read()
    ensures content { ContentReadsBack }
    ensures opening { OpeningReadsBack }
    ensures acknowledgement { AcknowledgementReadsBack }
{}

// law
/// The public constants are those of the definitions.
pub fn codes_are_the_definitions()
    ensures { AreTheCodes }
{}
