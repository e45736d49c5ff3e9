// The claim on three lists of events and on two lives, by computation: specs/ has them. No code stands here.
